//! Names of variables among the words of a command.
ghost use Rattle.std.specs.Prelude.{◌≡◌, ◌↔◌, IsTrue};
ghost use Rattle.trop_words.specs.Names.{IsName, begins_name, continues_name};

fn begins(b: u8) -> bool
    ensures { result ≡ begins_name b }
{
    (b'A' <= b && b <= b'Z') || (b'a' <= b && b <= b'z') || b == b'_'
}

fn continues(b: u8) -> bool
    ensures { result ≡ continues_name b }
{
    begins(b) || (b'0' <= b && b <= b'9')
}

const LONGEST: usize = 32;

pub(crate) fn is_name(text: &str) -> bool
    ensures { IsTrue result ↔ IsName text.now }
{
    match text.as_bytes() {
        [] => false,
        [first, rest @ ..] => {
            begins(*first) && rest.len() < LONGEST && rest.iter().all(|b| continues(*b))
        }
    }
}
