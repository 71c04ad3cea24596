//! A text as words.

ghost use Rattle.std.specs.Prelude.{◌≡◌, ◌∷◌, ◌≤◌, take};
ghost use Rattle.vhost_lines.specs.Read.{texts, words_of};
ghost use Rattle.vhost_lines.specs.Words.{words};

/// Room for the arguments of a call that takes no list, and for one more, by which it is none.
pub(crate) const ROOM: usize = 7;

/// The first word of a text, and the text behind the space that ends it, where one does.
pub(crate) fn first_word(text: &str) -> (&str, Option<&str>)
    ensures { words text.now ≡ result.0.now ∷ words_of result.1 }
{
    match text.split_once(' ') {
        Some((word, rest)) => (word, Some(rest)),
        None => (text, None),
    }
}

/// The first words of a text, as many as there is room for, in the first places of an array; how many they are.
pub(crate) fn first_words(text: Option<&str>) -> ([&str; ROOM], usize)
    ensures count { result.1 ≤ 7 }
    ensures words { texts (take result.1 result.0) ≡ take 7 (words_of text.entry) }
{
    let mut found = [""; ROOM];
    let mut rest = text;
    for count in 0..ROOM {
        let Some(text) = rest else {
            return (found, count);
        };
        let (word, behind) = first_word(text);
        found[count] = word;
        rest = behind;
    }
    (found, ROOM)
}
