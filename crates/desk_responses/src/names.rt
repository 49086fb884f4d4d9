// The names of projects as a JSON list.
ghost use Rattle.std.specs.Prelude.{◌≡◌, ◌++◌, OnOk};
ghost use Rattle.desk_responses.specs.Names.{quoted, further_of, items_of, names_of};

use result_keeper::ProjectName;
use std::alloc::AllocError;

fn put_quoted(out: &mut Vec<u8>, name: &ProjectName) -> Result<(), AllocError>
    ensures { OnOk result (out.new.items ≡ out.old.items ++ quoted name.now) }
{
    out.extend_from_slice(b"\"")?;
    out.extend_from_slice(name.bytes())?;
    out.extend_from_slice(b"\"")
}

fn put_further(out: &mut Vec<u8>, names: &[ProjectName]) -> Result<(), AllocError>
    ensures { OnOk result (out.new.items ≡ out.old.items ++ further_of names.now) }
{
    for name in names {
        out.extend_from_slice(b",")?;
        put_quoted(out, name)?;
    }
    Ok(())
}

fn put_items(out: &mut Vec<u8>, names: &[ProjectName]) -> Result<(), AllocError>
    ensures { OnOk result (out.new.items ≡ out.old.items ++ items_of names.now) }
{
    match names {
        [] => Ok(()),
        [first, rest @ ..] => {
            put_quoted(out, first)?;
            put_further(out, rest)
        }
    }
}

/// Appends the names as a JSON list without spaces, and a line feed.
pub fn put_names(out: &mut Vec<u8>, names: &[ProjectName]) -> Result<(), AllocError>
    ensures { OnOk result (out.new.items ≡ out.old.items ++ names_of names.now) }
{
    out.extend_from_slice(b"[")?;
    put_items(out, names)?;
    out.extend_from_slice(b"]\n")
}
