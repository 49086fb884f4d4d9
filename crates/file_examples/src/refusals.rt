// The lines of refusals that no file alone has.
use sqlite_items::Items;
use std::alloc::{AllocError, Global};
use std::test::Fail;
use workbench_core::{FixedRefusal, Refusal, TreeReason, print_refusal};

// Refusals without texts, and their lines.
const NUMBERED: [(Refusal, &str); 14] = [
    (Refusal::FileFault, "refused 3 FileFault\n"),
    (
        Refusal::TreeTooLarge { stage: 1 },
        "refused 7 TreeTooLarge 1\n",
    ),
    (Refusal::Full, "refused 10 Full\n"),
    (Refusal::StoreFault, "refused 11 StoreFault\n"),
    (
        Refusal::TreeRefused {
            reason: TreeReason::TreeText { place: 3 },
        },
        "refused 14 TreeRefused TreeText 3\n",
    ),
    (
        Refusal::TreeRefused {
            reason: TreeReason::UnknownType { place: 0 },
        },
        "refused 14 TreeRefused UnknownType 0\n",
    ),
    (
        Refusal::TreeRefused {
            reason: TreeReason::TooManyEdges { count: 25 },
        },
        "refused 14 TreeRefused TooManyEdges 25\n",
    ),
    (
        Refusal::TreeRefused {
            reason: TreeReason::TooManyDecorations { total: 65 },
        },
        "refused 14 TreeRefused TooManyDecorations 65\n",
    ),
    (
        Refusal::TreeRefused {
            reason: TreeReason::NotCanonical,
        },
        "refused 14 TreeRefused NotCanonical\n",
    ),
    (
        Refusal::TreeRefused {
            reason: TreeReason::NotPositive,
        },
        "refused 14 TreeRefused NotPositive\n",
    ),
    (
        Refusal::TableRefused { line: 7 },
        "refused 14 TableRefused 7\n",
    ),
    (
        Refusal::TooManyNoises { count: 13 },
        "refused 14 TooManyNoises 13\n",
    ),
    (Refusal::Memory, "refused 17 Memory\n"),
    (Refusal::OldStore, "refused 19 OldStore\n"),
];

// The lines that take no memory.
const FIXED: [(FixedRefusal, u8, &str); 6] = [
    (FixedRefusal::Words, 2, "refused 2 Words\n"),
    (FixedRefusal::FileFault, 3, "refused 3 FileFault\n"),
    (FixedRefusal::StoreFault, 11, "refused 11 StoreFault\n"),
    (FixedRefusal::WriteFault, 15, "refused 15 WriteFault\n"),
    (FixedRefusal::DoorFault, 16, "refused 16 DoorFault\n"),
    (FixedRefusal::Memory, 17, "refused 17 Memory\n"),
];

fn text(alloc: Global, text: &str) -> Result<Items<u8>, AllocError> {
    Items::from_slice(alloc, text.as_bytes())
}

// A refusal by the name in its line, with texts that serve as examples.
fn named(alloc: Global, name: &str) -> Result<Refusal, AllocError> {
    let tree = text(alloc, "[v*v]")?;
    match name {
        "CoefficientTooLarge" => {
            let quantity = text(alloc, "denominator u")?;
            Ok(Refusal::CoefficientTooLarge { tree, quantity })
        }
        "StoredRow" => {
            let context = text(alloc, "scaling 2,1")?;
            Ok(Refusal::StoredRow { context, tree })
        }
        "Differs" => {
            let stored = text(alloc, "1 0")?;
            let computed = text(alloc, "1 -E[v*v]")?;
            Ok(Refusal::Differs {
                tree,
                stored,
                computed,
            })
        }
        "Missing" => Ok(Refusal::Missing { tree }),
        "MetTooLarge" => Ok(Refusal::MetTooLarge { tree }),
        "TooManyTriples" => Ok(Refusal::TooManyTriples { tree }),
        "StoredContext" => Ok(Refusal::StoredContext { context: tree }),
        _ => Ok(Refusal::NoProject { name: tree }),
    }
}

#[test]
fn lines_with_numbers(rt: HostRuntime) -> Result<(), Fail> {
    for (refusal, line) in &NUMBERED {
        let printed = print_refusal(rt.alloc(), refusal);
        assert!(rt;
            printed.is_ok_and(|bytes| bytes.as_slice() == line.as_bytes()),
            "{line}"
        );
    }
    Ok(())
}

#[test]
fn lines_that_take_no_memory(rt: HostRuntime) -> Result<(), Fail> {
    for (refusal, status, line) in FIXED {
        assert_eq!(rt;
            (refusal.status(), refusal.line()),
            (status, line.as_bytes())
        );
    }
    Ok(())
}

#[test]
fn lines_with_texts(rt: HostRuntime) -> Result<(), Fail> {
    for (name, line) in [
        (
            "CoefficientTooLarge",
            "refused 9 CoefficientTooLarge [v*v] denominator u\n",
        ),
        ("NoProject", "refused 10 NoProject [v*v]\n"),
        ("StoredRow", "refused 12 StoredRow [v*v]\n"),
        (
            "Differs",
            "refused 13 Differs [v*v]\nstored 1 0\ncomputed 1 -E[v*v]\n",
        ),
        ("Missing", "refused 14 Missing [v*v]\n"),
        ("MetTooLarge", "refused 20 MetTooLarge [v*v]\n"),
        ("StoredContext", "refused 21 StoredContext [v*v]\n"),
        ("TooManyTriples", "refused 22 TooManyTriples [v*v]\n"),
    ] {
        let refusal = named(rt.alloc(), name)?;
        let printed = print_refusal(rt.alloc(), &refusal);
        assert!(rt;
            printed.is_ok_and(|bytes| bytes.as_slice() == line.as_bytes()),
            "{line}"
        );
    }
    Ok(())
}
