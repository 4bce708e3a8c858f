//! What a line asks of a book, which stays as it is.
ghost use Rattle.std.specs.Prelude.{◌≡◌};
ghost use Rattle.bg_operator.specs.Words.{meaning_in, queries};

/// What a line asks of a book, which stays as it is. Each has a line of one word.
#[derive(Clone, Copy, PartialEq, Eq, Debug, Drop)]
pub enum Query {
    /// The state of the rollout, and each of its revisions.
    Report,
}

/// What a line of this word asks; `None` if it is the word of another line, or of none.
pub(crate) fn query_named(word: &str) -> Option<Query>
    ensures { result ≡ meaning_in queries word.now }
{
    match word {
        "report" => Some(Query::Report),
        _ => None,
    }
}
