//! What the words say.

ghost use Rattle.std.specs.Prelude.{◌≡◌, map, option_map, string_bytes};
ghost use Rattle.cap_cli.specs.Words.{SaysAs, WishesSo, alone, any_word, are_named as names_two, said_at_end, first_node, is_option as has_dash, listing_of, nothing_said, once, other_node, said_by, said_to_end, wish_of, wish_or, wished, with_lines, without_lines, word_after};

use decnet_frames::{Between, Ends, read_node};
use texts::is;

/// What is wrong with a word.
#[derive(Clone, Copy, Debug, PartialEq, Eq)]
pub enum What {
    /// It is no option.
    NoSuchWord,
    /// The option was given before, or a file was.
    GivenTwice,
    /// The option doesn't go with `--lines`.
    NotWithLines,
    /// After `--between` there aren't two nodes.
    TwoNodes,
}

/// What the options say.
#[derive(Clone, Copy, Debug, PartialEq, Eq)]
pub struct Options {
    /// Lines come without words.
    pub bare: bool,
    /// Segments aren't joined.
    pub segments: bool,
    /// Packets are written as lines of a capture.
    pub lines: bool,
    /// The whole input is checked first.
    pub strict: bool,
    /// The nodes whose packets are taken.
    pub between: Between,
}

/// The first mistake in the words: the word, and what is wrong with it.
#[derive(Clone, Copy, Debug, PartialEq, Eq)]
pub struct Mistake<'a> {
    pub word: &'a str,
    pub what: What,
}

/// An input that is to be listed: how, and which file, or standard input where it is none or `-`.
#[derive(Clone, Copy, Debug, PartialEq, Eq)]
pub struct Task<'a> {
    pub options: Options,
    pub file: Option<&'a str>,
}

/// What is asked for.
#[derive(Clone, Copy, Debug, PartialEq, Eq)]
pub enum Wish<'a> {
    Help,
    Version,
    Listing(Task<'a>),
}

/// Which word may come next.
#[derive(Clone, Copy)]
enum Awaits {
    /// An option or a file.
    Any,
    /// The first node after `--between`.
    First,
    /// The second one, after this one.
    Other(u16),
}

/// What the words so far say.
#[derive(Clone, Copy)]
struct Given<'a> {
    options: Options,
    file: Option<&'a str>,
    /// The first option that doesn't go with `--lines`.
    unfit: Option<&'a str>,
    awaits: Awaits,
}

/// What is wrong with the words after `--between`.
const NO_NODES: Mistake<'static> = Mistake {
    word: "--between",
    what: What::TwoNodes,
};

/// Returns whether two nodes are named.
fn are_named(between: Between) -> bool
    ensures { result ≡ names_two between }
{
    matches!(between, Between::Two(_))
}

/// Returns whether a word is to be an option: it begins with `-`, and has more after that.
fn is_option(word: &str) -> bool
    ensures { result ≡ has_dash word.now }
{
    matches!(word.as_bytes(), [b'-', _, ..])
}

/// Returns what is said with a word that may come once, and came before or not.
fn said_once<'a>(came: bool, word: &'a str, given: Given<'a>) -> Result<Given<'a>, Mistake<'a>>
    ensures { SaysAs result (once came word.now (said_by given.entry)) }
{
    if came {
        return Err(Mistake {
            word,
            what: What::GivenTwice,
        });
    }
    Ok(given)
}

impl<'a> Given<'a> {
    /// Returns what is said before the first word.
    fn nothing() -> Given<'a>
        ensures { said_by result ≡ nothing_said }
    {
        Given {
            options: Options {
                bare: false,
                segments: false,
                lines: false,
                strict: false,
                between: Between::All,
            },
            file: None,
            unfit: None,
            awaits: Awaits::Any,
        }
    }

    /// Takes an option that doesn't go with `--lines`, and came before or not; with it the options are these.
    fn without_lines(
        self,
        came: bool,
        word: &'a str,
        options: Options,
    ) -> Result<Given<'a>, Mistake<'a>>
        ensures { SaysAs result (without_lines came word.now (said_by self.entry) options) }
    {
        if came {
            return Err(Mistake {
                word,
                what: What::GivenTwice,
            });
        }
        if self.options.lines {
            return Err(Mistake {
                word,
                what: What::NotWithLines,
            });
        }
        Ok(Given {
            options,
            unfit: self.unfit.or(Some(word)),
            ..self
        })
    }

    /// Takes `--lines`.
    fn with_lines(self, word: &'a str) -> Result<Given<'a>, Mistake<'a>>
        ensures { SaysAs result
            (with_lines (said_by self.entry).unfit word.now (said_by self.entry)) }
    {
        if let Some(unfit) = self.unfit {
            return Err(Mistake {
                word: unfit,
                what: What::NotWithLines,
            });
        }
        let options = Options {
            lines: true,
            ..self.options
        };
        said_once(self.options.lines, word, Given { options, ..self })
    }

    /// Takes an option or a file.
    fn with_any(self, word: &'a str) -> Result<Given<'a>, Mistake<'a>>
        ensures { SaysAs result (any_word (said_by self.entry) word.now) }
    {
        let was = self.options;
        match word {
            "--bare" => self.without_lines(was.bare, word, Options { bare: true, ..was }),
            "--segments" => {
                self.without_lines(
                    was.segments,
                    word,
                    Options {
                        segments: true,
                        ..was
                    },
                )
            }
            "--lines" => self.with_lines(word),
            "--strict" => {
                let options = Options {
                    strict: true,
                    ..was
                };
                said_once(was.strict, word, Given { options, ..self })
            }
            "--between" => {
                let awaits = Awaits::First;
                said_once(are_named(was.between), word, Given { awaits, ..self })
            }
            _ if is_option(word) => Err(Mistake {
                word,
                what: What::NoSuchWord,
            }),
            _ => {
                let file = Some(word);
                said_once(self.file.is_some(), word, Given { file, ..self })
            }
        }
    }

    /// Takes the first node after `--between`, if there is one.
    fn with_first(self, node: Option<u16>) -> Result<Given<'a>, Mistake<'a>>
        ensures { SaysAs result (first_node (said_by self.entry) node) }
    {
        match node {
            None => Err(NO_NODES),
            Some(first) => Ok(Given {
                awaits: Awaits::Other(first),
                ..self
            }),
        }
    }

    /// Takes the second node, if there is one; it must differ from the first one.
    fn with_other(self, first: u16, node: Option<u16>) -> Result<Given<'a>, Mistake<'a>>
        ensures { SaysAs result (other_node (said_by self.entry) first node) }
    {
        match node {
            Some(other) if other != first => {
                let between = Between::Two(Ends { first, other });
                let options = Options {
                    between,
                    ..self.options
                };
                Ok(Given {
                    options,
                    awaits: Awaits::Any,
                    ..self
                })
            }
            _ => Err(NO_NODES),
        }
    }

    /// Takes the next word.
    fn with(self, word: &'a str) -> Result<Given<'a>, Mistake<'a>>
        ensures { SaysAs result
            (word_after (said_by self.entry).awaits (said_by self.entry) word.now) }
    {
        match self.awaits {
            Awaits::Any => self.with_any(word),
            Awaits::First => self.with_first(read_node(word.as_bytes())),
            Awaits::Other(first) => self.with_other(first, read_node(word.as_bytes())),
        }
    }

    /// Returns what is said where no word follows.
    fn ended(self) -> Result<Given<'a>, Mistake<'a>>
        ensures { SaysAs result (said_at_end (said_by self.entry).awaits (said_by self.entry)) }
    {
        match self.awaits {
            Awaits::Any => Ok(self),
            Awaits::First | Awaits::Other(_) => Err(NO_NODES),
        }
    }
}

/// Takes all words, one by one, after which none follows. It calls itself for each word that is right, and of these
/// there are at most nine, since none may come twice.
fn take_words<'a>(given: Given<'a>, words: &'a [String]) -> Result<Given<'a>, Mistake<'a>>
    ensures { SaysAs result (said_to_end (said_by given.entry) (map string_bytes words.now)) }
{
    match words {
        [] => given.ended(),
        [word, rest @ ..] => take_words(given.with(word.as_str())?, rest),
    }
}

/// Returns what the words of a listing say.
fn read_task(words: &[String]) -> Result<Wish<'_>, Mistake<'_>>
    ensures { WishesSo result (listing_of (map string_bytes words.now)) }
{
    let given = take_words(Given::nothing(), words)?;
    Ok(Wish::Listing(Task {
        options: given.options,
        file: given.file,
    }))
}

/// Returns what a word asks for that stands alone, or None.
fn wish_alone(word: &str) -> Option<Wish<'static>>
    ensures { option_map wished result ≡ alone word.now }
{
    match word {
        "--help" => Some(Wish::Help),
        "--version" => Some(Wish::Version),
        _ => None,
    }
}

/// Returns this wish, if it is one, and else what the words of a listing say.
fn wish_or<'a>(alone: Option<Wish<'static>>, words: &'a [String]) -> Result<Wish<'a>, Mistake<'a>>
    ensures { WishesSo result
        (wish_or (option_map wished alone.entry) (map string_bytes words.now)) }
{
    match alone {
        Some(wish) => Ok(wish),
        None => read_task(words),
    }
}

/// Returns what the words say, without the program's name: a word alone may ask for help or for the version.
///
/// Refused: the first mistake, where the words are read one by one. `NoSuchWord`: a word that begins with `-`, has more
/// after that and is no option, `--help` and `--version` beside others among them. `GivenTwice`: an option that came
/// before, or a second file. `NotWithLines`: of `--bare` and `--segments` beside `--lines`, the one that came first.
/// `TwoNodes`: after `--between` there aren't two nodes, 1.1 to 63.1023, not the same one twice.
#[tactic(auto, using(crate::proofs::WordLemmas::lone, crate::proofs::WordLemmas::others))]
pub fn read_words(words: &[String]) -> Result<Wish<'_>, Mistake<'_>>
    ensures { WishesSo result (wish_of (map string_bytes words.now)) }
{
    match words {
        [word] => wish_or(wish_alone(word.as_str()), words),
        _ => read_task(words),
    }
}
