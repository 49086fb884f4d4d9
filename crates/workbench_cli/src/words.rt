// The words of the command line.
ghost use Rattle.std.specs.Prelude.{◌≡◌, ◌≢◌, ◌∷◌, [], ℕ, ◌<◌, ◌^◌, Some, true, false, decimal, bytes_eq, is_some, IfSome, IfNone, string_bytes, map, codes};
ghost use Rattle.result_keeper.specs.ProjectName.{is_project_name};
ghost use Rattle.workbench_core.specs.Requests.{is_operand};
ghost use Rattle.workbench_store.specs.declared.request.Request.TheVariants.{Act, Multiply};
ghost use Rattle.workbench_store.specs.Requests.{IsAllowed, IsRequest, IsNoRequest};
ghost use Rattle.workbench_cli.specs.Numbers.{IsNumber};

use itoa::Buffer;
use limits::MOST_WORD_BYTES;
use result_keeper::ProjectName;
use sample_files::LARGEST_SAMPLE;
use workbench_core::Word;
use workbench_store::Request;

// What the words ask for.
pub fn read_words(words: &[String]) -> Option<Request<'_>>
    ensures found { IfSome result (λ r. IsRequest (map string_bytes words.now) r) }
    ensures none { IfNone result (IsNoRequest (map string_bytes words.now)) }
{
    match words.len() {
        1 => read_one(words[0].as_str()),
        2 => read_two(words[0].as_str(), words[1].as_str()),
        3 => read_three(words[0].as_str(), words[1].as_str(), words[2].as_str()),
        4 => read_four(
            words[0].as_str(),
            words[1].as_str(),
            words[2].as_str(),
            words[3].as_str(),
        ),
        5 => read_five(
            words[0].as_str(),
            words[1].as_str(),
            words[2].as_str(),
            words[3].as_str(),
            words[4].as_str(),
        ),
        _ => None,
    }
}

// What a command without operands asks for.
fn read_one<'a>(command: &str) -> Option<Request<'a>>
    ensures found { IfSome result (λ r. IsRequest (command.now ∷ []) r) }
    ensures none { IfNone result (IsNoRequest (command.now ∷ [])) }
{
    if command == "names" {
        Some(Request::Names)
    } else if command == "audit" {
        Some(Request::Audit)
    } else if command == "migrate" {
        Some(Request::Migrate)
    } else {
        None
    }
}

// What a command with one operand asks for.
fn read_two<'a>(command: &str, word: &'a str) -> Option<Request<'a>>
    ensures found { IfSome result (λ r. IsRequest (command.now ∷ word.now ∷ []) r) }
    ensures none { IfNone result (IsNoRequest (command.now ∷ word.now ∷ [])) }
{
    if command == "check" {
        let file = operand(word)?;
        Some(Request::Check { file })
    } else if command == "sample" {
        let number = read_number(word, 0, LARGEST_SAMPLE)?;
        Some(Request::Sample { number })
    } else {
        let name = project_name(word)?;
        on_project(command, name)
    }
}

// What a command with the name of a project alone asks for.
fn on_project<'a>(command: &str, name: ProjectName) -> Option<Request<'a>>
    requires no_check { command.now ≢ codes "check" }
    requires no_sample { command.now ≢ codes "sample" }
    requires name { is_project_name name ≡ true }
    ensures found { IfSome result (λ r. IsRequest (command.now ∷ name ∷ []) r) }
    ensures none { IfNone result (IsNoRequest (command.now ∷ name ∷ [])) }
{
    if command == "show" {
        Some(Request::Show { name })
    } else if command == "remove" {
        Some(Request::Remove { name })
    } else if command == "compute" {
        Some(Request::Compute { name, fresh: false })
    } else if command == "trees" {
        Some(Request::Trees { name })
    } else {
        None
    }
}

// What a command with two operands asks for.
fn read_three<'a>(command: &str, name: &str, last: &'a str) -> Option<Request<'a>>
    ensures found { IfSome result (λ r. IsRequest (command.now ∷ name.now ∷ last.now ∷ []) r) }
    ensures none { IfNone result (IsNoRequest (command.now ∷ name.now ∷ last.now ∷ [])) }
{
    let name = project_name(name)?;
    if command == "compute" && last == "--fresh" {
        Some(Request::Compute { name, fresh: true })
    } else {
        let word = operand(last)?;
        with_operand(command, name, word)
    }
}

// What a command with the name of a project and an operand asks for.
fn with_operand<'a>(command: &str, name: ProjectName, word: Word<'a>) -> Option<Request<'a>>
    requires name { is_project_name name ≡ true }
    requires word { is_operand word ≡ true }
    ensures found { IfSome result (λ r. IsRequest (command.now ∷ name ∷ word.entry ∷ []) r) }
    ensures none { IfNone result (IsNoRequest (command.now ∷ name ∷ word.entry ∷ [])) }
{
    if command == "add" {
        Some(Request::Add { name, file: word })
    } else if command == "detail" {
        Some(Request::Detail { name, tree: word })
    } else {
        None
    }
}

// What a command with three operands asks for.
fn read_four<'a>(command: &str, name: &str, tree: &'a str, table: &'a str) -> Option<Request<'a>>
    ensures found { IfSome result (λ r.
        IsRequest (command.now ∷ name.now ∷ tree.now ∷ table.now ∷ []) r) }
    ensures none { IfNone result
        (IsNoRequest (command.now ∷ name.now ∷ tree.now ∷ table.now ∷ [])) }
{
    if command == "act" {
        act(name, tree, table, false)
    } else {
        None
    }
}

// What a command with four operands asks for.
fn read_five<'a>(
    command: &str,
    name: &str,
    tree: &'a str,
    table: &'a str,
    last: &'a str,
) -> Option<Request<'a>>
    ensures found { IfSome result (λ r.
        IsRequest (command.now ∷ name.now ∷ tree.now ∷ table.now ∷ last.now ∷ []) r) }
    ensures none { IfNone result
        (IsNoRequest (command.now ∷ name.now ∷ tree.now ∷ table.now ∷ last.now ∷ [])) }
{
    if command == "act" && last == "--recentre" {
        act(name, tree, table, true)
    } else if command == "multiply" {
        multiply(name, tree, table, last)
    } else {
        None
    }
}

// What `act` asks for.
fn act<'a>(name: &str, tree: &'a str, table: &'a str, recentre: bool) -> Option<Request<'a>>
    ensures found { IfSome result (λ r.
        (r ≡ Act name.now tree.now table.now recentre) × IsAllowed r) }
    ensures none { IfNone result (IsAllowed (Act name.now tree.now table.now recentre) → ⊥) }
{
    let name = project_name(name)?;
    let tree = operand(tree)?;
    let table = operand(table)?;
    Some(Request::Act {
        name,
        tree,
        table,
        recentre,
    })
}

// What `multiply` asks for.
fn multiply<'a>(name: &str, tree: &'a str, first: &'a str, second: &'a str) -> Option<Request<'a>>
    ensures found { IfSome result (λ r.
        (r ≡ Multiply name.now tree.now first.now second.now) × IsAllowed r) }
    ensures none { IfNone result (IsAllowed (Multiply name.now tree.now first.now second.now) → ⊥) }
{
    let name = project_name(name)?;
    let tree = operand(tree)?;
    let first = operand(first)?;
    let second = operand(second)?;
    Some(Request::Multiply {
        name,
        tree,
        first,
        second,
    })
}

// The name of a project that the word is.
fn project_name(word: &str) -> Option<ProjectName>
    ensures name { IfSome result (λ n. n ≡ word.now) }
    ensures variant { is_some result ≡ is_project_name word.now }
{
    ProjectName::new(word.as_bytes())
}

// The word, where it can name a file or a table, or be the text of a tree.
fn operand(word: &str) -> Option<Word<'_>>
    ensures word { IfSome result (λ w. w ≡ word.now) }
    ensures variant { is_some result ≡ is_operand word.now }
{
    if is_operand(word.as_bytes()) {
        Some(Word::new(word))
    } else {
        None
    }
}

fn is_operand(word: &[u8]) -> bool
    ensures { result ≡ is_operand word.now }
{
    match word {
        [] => false,
        [first, ..] => *first != b'-' && word.len() <= MOST_WORD_BYTES,
    }
}

/// The number that a word writes in decimal digits without leading zeros, where it is one of
/// `least` to `most`.
pub fn read_number(word: &str, least: u32, most: u32) -> Option<u32>
    ensures found { IfSome result (λ n. IsNumber least most word.now n) }
    ensures none { IfNone result ((n : ℕ) → IsNumber least most word.now n → ⊥) }
{
    let number = parsed(word)?;
    if number < least || most < number {
        return None;
    }
    if writes(word.as_bytes(), number) {
        Some(number)
    } else {
        None
    }
}

// The number that a word writes, maybe with a sign or leading zeros.
#[tactic(auto, using(crate::proofs::NumberLemmas::parse_back))]
fn parsed(word: &str) -> Option<u32>
    ensures { (n : ℕ) → n < 2 ^ 32 → word.now ≡ decimal n → result ≡ Some n }
{
    match word.parse() {
        Ok(number) => Some(number),
        Err(_) => None,
    }
}

// Whether these are the digits of the number.
fn writes(word: &[u8], number: u32) -> bool
    ensures { result ≡ bytes_eq word.now (decimal number) }
{
    Buffer::new().format(number).as_bytes() == word
}
