//! What the words behind the program's name mean.
ghost use Rattle.std.specs.Prelude.{◌≡◌, map, option_map, string_bytes};
ghost use Rattle.std.specs.List.{list_all};
ghost use Rattle.gateway_run.specs.CommandViews.{command_view};
ghost use Rattle.gateway_run.specs.Commands.{bind_words, command_of, is_target, is_target_byte, set_of, set_words};

use http_rules::is_token;

/// The words of `bind SET METHOD TARGET`.
#[derive(Debug, Clone, Copy)]
pub(crate) struct Bind<'a> {
    /// The path of the descriptor set.
    pub(crate) set: &'a str,
    /// The method of the request: a token (RFC 9110, section 5.6.2).
    pub(crate) method: &'a str,
    /// The target of the request: visible ASCII bytes.
    pub(crate) target: &'a str,
}

/// A command.
#[derive(Debug, Clone, Copy)]
pub(crate) enum Command<'a> {
    /// `bind SET METHOD TARGET`.
    Bind(Bind<'a>),
    /// `check SET`, with the path of the descriptor set.
    Check(&'a str),
    /// `routes SET`, with the path of the descriptor set.
    Routes(&'a str),
}

impl<'a> Command<'a> {
    /// The path of the descriptor set.
    pub(crate) fn set(self) -> &'a str
        ensures { result.now ≡ set_of (command_view self.entry) }
    {
        match self {
            Command::Bind(words) => words.set,
            Command::Check(set) => set,
            Command::Routes(set) => set,
        }
    }
}

/// True where the byte is visible ASCII.
fn is_target_byte(byte: u8) -> bool
    ensures { result ≡ is_target_byte byte }
{
    0x21 <= byte && byte <= 0x7e
}

/// True where each byte is visible ASCII.
fn are_target_bytes(word: &[u8]) -> bool
    ensures { result ≡ list_all is_target_byte word.now }
{
    for byte in word {
        if !is_target_byte(*byte) {
            return false;
        }
    }
    true
}

/// True where the word has visible ASCII bytes alone, and fewer than 2^32.
fn is_target(word: &[u8]) -> bool
    ensures { result ≡ is_target word.now }
{
    word.len() < 1 << 32 && are_target_bytes(word)
}

/// The command that four words are: `bind`, where METHOD is a token and TARGET a target.
fn bind_words<'a>(name: &str, set: &'a str, method: &'a str, target: &'a str) -> Option<Command<'a>>
    ensures { option_map command_view result ≡ bind_words name.now set.now method.now target.now }
{
    if name == "bind" && is_token(method.as_bytes()) && is_target(target.as_bytes()) {
        return Some(Command::Bind(Bind {
            set,
            method,
            target,
        }));
    }
    None
}

/// The command that two words are: `check` or `routes`.
fn set_words<'a>(name: &str, set: &'a str) -> Option<Command<'a>>
    ensures { option_map command_view result ≡ set_words name.now set.now }
{
    if name == "check" {
        return Some(Command::Check(set));
    }
    if name == "routes" {
        return Some(Command::Routes(set));
    }
    None
}

/// The command that the words are, if they are one.
pub(crate) fn command_of(words: &[String]) -> Option<Command<'_>>
    ensures { option_map command_view result ≡ command_of (map string_bytes words.now) }
{
    match words {
        [name, set] => set_words(name.as_str(), set.as_str()),
        [name, set, method, target] => bind_words(
            name.as_str(),
            set.as_str(),
            method.as_str(),
            target.as_str(),
        ),
        _ => None,
    }
}
