// A text, cut at each of a byte.
ghost use Rattle.std.specs.Prelude.{◌≡◌, ◌<◌, ◌==◌, ◌∷◌, length, position, IfSome};
ghost use Rattle.std.specs.Option.{option_copied};
ghost use Rattle.world_lines.specs.Words.{parts_of, words_of, words_after, parts_after, AreFew};

fn first_place(byte: u8, text: &[u8]) -> Option<usize>
    ensures { result ≡ position (λ b. b == byte) text.now }
{
    text.iter().position(|b| *b == byte)
}

/// The first part of a text, and what stands behind the byte that ends it.
#[derive(Clone, Copy)]
pub(crate) struct FirstPart<'a> {
    pub(crate) part: &'a [u8],
    pub(crate) rest: Option<&'a [u8]>,
}

/// What stands before the first such byte, and after it.
pub(crate) fn first_part(byte: u8, text: &[u8]) -> FirstPart<'_>
    ensures parts { parts_of byte text.now ≡ result.part.now ∷ parts_after byte (option_copied result.rest) }
    ensures shorter { IfSome result.rest (λ rest. length rest.now < length text.now) }
{
    match first_place(byte, text) {
        Some(at) => FirstPart {
            part: &text[..at],
            rest: Some(&text[at + 1..]),
        },
        None => FirstPart {
            part: text,
            rest: None,
        },
    }
}

/// What stands before the first space, and after it.
pub(crate) fn first_word(text: &[u8]) -> FirstPart<'_>
    ensures { words_of text.now ≡ result.part.now ∷ words_after (option_copied result.rest) }
{
    first_part(b' ', text)
}

/// The words of a text that has two, three or four of them.
#[derive(Clone, Copy)]
pub(crate) enum FewWords<'a> {
    Two(&'a [u8], &'a [u8]),
    Three(&'a [u8], &'a [u8], &'a [u8]),
    Four(&'a [u8], &'a [u8], &'a [u8], &'a [u8]),
    Other,
}

// With three words before the text.
fn after_three<'a>(word: &'a [u8], a: &'a [u8], b: &'a [u8], text: &'a [u8]) -> FewWords<'a>
    ensures { AreFew result (word.now ∷ a.now ∷ b.now ∷ words_of text.now) }
{
    let next = first_word(text);
    match next.rest {
        Some(_) => FewWords::Other,
        None => FewWords::Four(word, a, b, next.part),
    }
}

fn after_two<'a>(word: &'a [u8], a: &'a [u8], text: &'a [u8]) -> FewWords<'a>
    ensures { AreFew result (word.now ∷ a.now ∷ words_of text.now) }
{
    let next = first_word(text);
    match next.rest {
        Some(rest) => after_three(word, a, next.part, rest),
        None => FewWords::Three(word, a, next.part),
    }
}

fn after_one<'a>(word: &'a [u8], text: &'a [u8]) -> FewWords<'a>
    ensures { AreFew result (word.now ∷ words_of text.now) }
{
    let next = first_word(text);
    match next.rest {
        Some(rest) => after_two(word, next.part, rest),
        None => FewWords::Two(word, next.part),
    }
}

/// What stands behind a fourth word isn't read.
pub(crate) fn few_words(text: &[u8]) -> FewWords<'_>
    ensures { AreFew result (words_of text.now) }
{
    let first = first_word(text);
    match first.rest {
        Some(rest) => after_one(first.part, rest),
        None => FewWords::Other,
    }
}
