//! Rows of an equation with one noise, `u*xi` in two space directions: which are read, and true.
#![tactic(auto)]

mod verdicts;

#[cfg(test)]
mod tests {
    use crate::verdicts::{row, verdict};
    use std::test::Fail;
    use type_contexts::read_context;

    const CONTEXT: &str = "context 2|scaling 2,1,1|reflect -|noise xi -1-k xi|kernel u 2 -";

    // Trees and values, and what is found of them; the constant that is computed where a value is
    // another one.
    const ROWS: [(&str, &str, &str); 9] = [
        ("[xi*u[xi]]", "1 -E[xi*u[xi]]", "true"),
        ("[xi*u[xi]]", "1 0", "1 -E[xi*u[xi]]"),
        ("[xi]", "0 0", "true"),
        ("[xi]", "1 0", "0 0"),
        ("[]", "1 1", "true"),
        ("[xi*u[xi]]", "one", "unread"),
        ("[xi*u[xi]]", "1 -E[u[xi]*xi]", "unread"),
        ("[u[xi]*xi]", "1 0", "unread"),
        ("[v]", "1 0", "unread"),
    ];

    #[test]
    fn rows_of_one_noise(rt: HostRuntime) -> Result<(), Fail> {
        let alloc = rt.alloc();
        let types = read_context(alloc, CONTEXT.as_bytes()).expect(&rt, "types");
        for (tree, value, found) in ROWS {
            let rows = vec![in alloc; row(alloc, tree, value)?]?;
            let verdict = verdict(alloc, &types, &rows)?;
            assert_eq!(rt; verdict.as_slice(), found.as_bytes(), "{tree} {value}");
        }
        Ok(())
    }
}
