//! The types that the definition calls those of an accepted equation file are those of one. The law
//! stands apart, since it joins the reader of files to types, which know nothing of it.
#![tactic(auto)]

ghost use Rattle.std.specs.Prelude.{◌≡◌, Ok};
ghost use Rattle.toml.specs.Data.{Members};
ghost use Rattle.degree_numbers.specs.declared.types.Types.{Types};
ghost use Rattle.degree_numbers.specs.Types.{AreTypes};
ghost use Rattle.equation_document.specs.declared.document.Document.{Document};
ghost use Rattle.equation_document.specs.File.{accepted};
ghost use Rattle.equation_document.specs.Limits.{units_of};
ghost use Rattle.equation_file.specs.Meaning.{types_of};
ghost use Rattle.type_contexts.specs.Same.{AreSameTypes};

/// The types of the table of each accepted file are types as the definition asks for; and for all
/// types that it allows, in any common denominator, there is the table of an accepted file that has
/// the same types. So the definition asks for neither less nor more than a file gives.
pub fn types_are_those_of_files()
    ensures types { (ms : Members) (doc : Document) → accepted ms ≡ Ok doc →
        AreTypes (types_of (units_of doc) doc) }
    ensures file { (ty : Types) → AreTypes ty → (ms : Members) × (doc : Document) × (accepted ms
        ≡ Ok doc) × AreSameTypes ty (types_of (units_of doc) doc) }
{}
