//! What the words of a command line ask.
ghost use Rattle.std.specs.Prelude.{◌≡◌, ◌∷◌, [], ◌↔◌, ◌⊎◌, ◌==◌, ℕ, Bool, EachIndex, IfOk, IsErrOf, IsTrue, List, MatchOption, codes, map, slice_index};
ghost use Rattle.canvas_cli.specs.Asking.{request_of};
ghost use Rattle.canvas_cli.specs.Commands.{AreWords, IsAsked, IsCommand, One, Pair, letters};
ghost use Rattle.canvas_cli.specs.declared.command.Single as singles;

use cv_base::Memory;
use sqlite_items::Items;
use std::alloc::Global;

/// What is asked of a specification and a client.
#[derive(Debug, Drop)]
pub enum Command {
    /// Whether no run of the client breaks a clause.
    Certify,
    /// How the client runs on these choices.
    Run(Items<bool>),
}

/// What is asked of a specification alone.
#[derive(Clone, Copy, Debug, PartialEq, Eq)]
pub enum Single {
    /// Its canonical layout.
    Show,
    /// The families, facts and updates with which it closes.
    Derive,
}

/// A command on the specification of this name alone.
#[derive(Debug, Drop)]
pub struct AskedOne<'a> {
    pub single: Single,
    pub spec: &'a str,
}

/// A command on the specification and the client of these names.
#[derive(Debug, Drop)]
pub struct AskedPair<'a> {
    pub command: Command,
    pub spec: &'a str,
    pub client: &'a str,
}

/// What is asked, and the names of its texts.
#[derive(Debug, Drop)]
pub enum Asked<'a> {
    /// A command on one text.
    One(AskedOne<'a>),
    /// A command on two texts.
    Pair(AskedPair<'a>),
}

/// Why nothing is asked.
#[derive(Clone, Copy, Debug, PartialEq, Eq)]
pub(crate) enum NoCommand {
    /// The words ask nothing.
    Usage,
    /// Memory was wanted for it and not found.
    Memory,
}

/// What the words ask.
pub(crate) fn read_words<'a>(alloc: Global, words: &'a [String]) -> Result<Asked<'a>, NoCommand>
    ensures command { IfOk result (λ a. IsAsked words.now (request_of a)) }
    ensures usage { IsErrOf result NoCommand.Usage → IsCommand words.now → ⊥ }
    ensures memory { IsErrOf result NoCommand.Memory → IsCommand words.now }
{
    match show_words(words) {
        Some(spec) => Ok(Asked::One(AskedOne {
            single: Single::Show,
            spec,
        })),
        None => read_derive(alloc, words),
    }
}

/// What the words ask, which do not ask to show.
#[tactic(auto, using(crate::proofs::Letters::no_single))]
fn read_derive<'a>(alloc: Global, words: &'a [String]) -> Result<Asked<'a>, NoCommand>
    requires { (spec : List ℕ) → IsAsked words.now (One Single.Show spec) → ⊥ }
    ensures command { IfOk result (λ a. IsAsked words.now (request_of a)) }
    ensures usage { IsErrOf result NoCommand.Usage → IsCommand words.now → ⊥ }
    ensures memory { IsErrOf result NoCommand.Memory → IsCommand words.now }
{
    match derive_words(words) {
        Some(spec) => Ok(Asked::One(AskedOne {
            single: Single::Derive,
            spec,
        })),
        None => read_pair(alloc, words),
    }
}

/// The command on a pair that the words ask, which ask nothing of one text.
fn read_pair<'a>(alloc: Global, words: &'a [String]) -> Result<Asked<'a>, NoCommand>
    requires { (single : singles.Single) (spec : List ℕ) → IsAsked words.now (One single spec) → ⊥ }
    ensures command { IfOk result (λ a. IsAsked words.now (request_of a)) }
    ensures usage { IsErrOf result NoCommand.Usage → IsCommand words.now → ⊥ }
    ensures memory { IsErrOf result NoCommand.Memory → IsCommand words.now }
{
    match certify_words(words) {
        Some((spec, client)) => Ok(Asked::Pair(AskedPair {
            command: Command::Certify,
            spec,
            client,
        })),
        None => read_run(alloc, words),
    }
}

/// The run that the words ask, which ask nothing of one text, and not to certify.
fn read_run<'a>(alloc: Global, words: &'a [String]) -> Result<Asked<'a>, NoCommand>
    requires one { (single : singles.Single) (spec : List ℕ) → IsAsked words.now (One single spec) → ⊥ }
    requires certify { (spec client : List ℕ) → IsAsked words.now (Pair Command.Certify spec client) → ⊥ }
    ensures command { IfOk result (λ a. IsAsked words.now (request_of a)) }
    ensures usage { IsErrOf result NoCommand.Usage → IsCommand words.now → ⊥ }
    ensures memory { IsErrOf result NoCommand.Memory → IsCommand words.now }
{
    let Some((spec, client, choices)) = run_words(words) else {
        return Err(NoCommand::Usage);
    };
    if !are_letters(choices.as_bytes()) {
        return Err(NoCommand::Usage);
    }
    match choices_of(alloc, choices.as_bytes()) {
        Ok(choices) => Ok(Asked::Pair(AskedPair {
            command: Command::Run(choices),
            spec,
            client,
        })),
        Err(Memory) => Err(NoCommand::Memory),
    }
}

/// The word behind `show`.
fn show_words(words: &[String]) -> Option<&str>
    ensures { MatchOption result ((spec : List ℕ) → AreWords words.now (codes "show" ∷ spec ∷ []) → ⊥)
        (λ name. AreWords words.now (codes "show" ∷ name.now ∷ [])) }
{
    match words {
        [command, spec] => {
            if command.as_str() == "show" {
                Some(spec.as_str())
            } else {
                None
            }
        }
        _ => None,
    }
}

/// The word behind `derive`.
fn derive_words(words: &[String]) -> Option<&str>
    ensures { MatchOption result ((spec : List ℕ) → AreWords words.now (codes "derive" ∷ spec ∷ []) → ⊥)
        (λ name. AreWords words.now (codes "derive" ∷ name.now ∷ [])) }
{
    match words {
        [command, spec] => {
            if command.as_str() == "derive" {
                Some(spec.as_str())
            } else {
                None
            }
        }
        _ => None,
    }
}

/// The two words behind `certify`.
fn certify_words(words: &[String]) -> Option<(&str, &str)>
    ensures { MatchOption result ((spec client : List ℕ) → AreWords words.now (codes "certify" ∷ spec ∷ client ∷ []) → ⊥)
        (λ names. AreWords words.now (codes "certify" ∷ names.0.now ∷ names.1.now ∷ [])) }
{
    match words {
        [command, spec, client] => {
            if command.as_str() == "certify" {
                Some((spec.as_str(), client.as_str()))
            } else {
                None
            }
        }
        _ => None,
    }
}

/// The three words behind `run`.
fn run_words(words: &[String]) -> Option<(&str, &str, &str)>
    ensures { MatchOption result ((spec client choices : List ℕ) → AreWords words.now (codes "run" ∷ spec ∷ client ∷ choices ∷ []) → ⊥)
        (λ names. AreWords words.now (codes "run" ∷ names.0.now ∷ names.1.now ∷ names.2.now ∷ [])) }
{
    match words {
        [command, spec, client, choices] => {
            if command.as_str() == "run" {
                Some((spec.as_str(), client.as_str(), choices.as_str()))
            } else {
                None
            }
        }
        _ => None,
    }
}

/// Whether the word writes choices.
#[tactic(auto, using(crate::proofs::Letters::spelled, crate::proofs::Letters::spells))]
fn are_letters(word: &[u8]) -> bool
    ensures { IsTrue result ↔ ((choices : List Bool) × (word.now ≡ letters choices)) }
{
    have_letters(word)
}

/// Whether each byte is T or F.
fn have_letters(word: &[u8]) -> bool
    ensures { IsTrue result ↔ EachIndex word.now (λ k. (slice_index word.now k ≡ 84) ⊎ (slice_index word.now k ≡ 70)) }
{
    word.iter().all(|letter| *letter == b'T' || *letter == b'F')
}

/// The choices that the word writes.
fn choices_of(alloc: Global, word: &[u8]) -> Result<Items<bool>, Memory>
    requires { (choices : List Bool) × (word.now ≡ letters choices) }
    ensures { IfOk result (λ choices. word.now ≡ letters choices) }
{
    match truths_of(alloc, word) {
        Ok(choices) => Ok(Items::from_vec(choices)),
        Err(Memory) => Err(Memory),
    }
}

/// Whether each byte is T.
fn truths_of(alloc: Global, word: &[u8]) -> Result<Vec<bool>, Memory>
    ensures { IfOk result (λ v. v.items ≡ map (λ letter. letter == 84) word.now) }
{
    match word.iter().map(|letter| *letter == b'T').collect(alloc) {
        Ok(truths) => Ok(truths),
        Err(_) => Err(Memory),
    }
}
