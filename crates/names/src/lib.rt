// Names, symbols, predicates and productions: whether the content of a field is as laid out.

#![tactic(auto)]

ghost use Rattle.std.specs.Prelude.{◌≡◌};
ghost use Rattle.meaning.specs.Contents.{name_byte, is_name, is_named, is_production};

// a-z, 0-9, `[`, `]`, `_`.
fn name_byte(b: u8) -> bool
    ensures { result ≡ name_byte b }
{
    matches!(b, b'a'..=b'z' | b'0'..=b'9' | b'[' | b']' | b'_')
}

// A name: 1 to 8 of these bytes.
pub fn is_name(s: &[u8]) -> bool
    ensures { result ≡ is_name s.now }
{
    if s.is_empty() || meaning::MOST_NAME < s.len() {
        return false;
    }
    s.iter().all(|b| name_byte(*b))
}

// A symbol or a predicate: an arity, at most the one given, and a name.
pub fn is_named(s: &[u8], most: u8) -> bool
    ensures { result ≡ is_named most s.now }
{
    match s {
        [arity, name @ ..] => *arity <= most && is_name(name),
        [] => false,
    }
}

// A production: a declared type, a declared symbol, and as many declared types as its arity.
pub fn is_production(s: &[u8], types: u8, arities: &[u8]) -> bool
    ensures { result ≡ is_production types arities.now s.now }
{
    let [target, symbol, arguments @ ..] = s else {
        return false;
    };
    if types <= *target {
        return false;
    }
    let Some(arity) = arities.get(usize::from(*symbol)) else {
        return false;
    };
    if usize::from(*arity) != arguments.len() {
        return false;
    }
    arguments.iter().all(|t| *t < types)
}
