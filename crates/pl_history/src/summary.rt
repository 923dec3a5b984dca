// The printed summary of a history.
ghost use Rattle.std.specs.Prelude.{◌≡◌, length};
ghost use Rattle.pl_io.specs.Puts.{Puts};
ghost use Rattle.pl_history.specs.Summary.{answered_lines, answers_its_line, exclusive_or, summary_text, taken_words, word_of_answer};

use crate::answer::{Answer, Entry};
use crate::history::History;
use pl_base::Failed;
use pl_io::{Piece, Sink, put_pieces};

fn answers_its_line(answer: &Answer) -> bool
    ensures { result ≡ answers_its_line answer.now }
{
    !matches!(answer, Answer::Begun)
}

fn word_of_answer(answer: &Answer) -> Option<u64>
    ensures { result ≡ word_of_answer answer.now }
{
    match *answer {
        Answer::Word(word) => Some(word),
        _ => None,
    }
}

fn answered_lines(entries: &[Entry]) -> usize
    ensures { result ≡ answered_lines entries.now }
{
    entries
        .iter()
        .filter(|entry| answers_its_line(&entry.answer))
        .count()
}

fn count_words(entries: &[Entry]) -> usize
    ensures { result ≡ length (taken_words entries.now) }
{
    entries
        .iter()
        .filter_map(|entry| word_of_answer(&entry.answer))
        .count()
}

fn exclusive_or(entries: &[Entry]) -> u64
    ensures { result ≡ exclusive_or (taken_words entries.now) }
{
    entries
        .iter()
        .filter_map(|entry| word_of_answer(&entry.answer))
        .fold(0, |so_far, word| so_far ^ word)
}

/// Writes how many lines are answered, how many words were taken, and the exclusive or of these words, in 16 digits: a line each.
pub fn put_summary<K: Sink>(sink: &mut K, history: &History) -> Result<(), Failed>
    ensures { Puts (K.written sink.old) (K.written sink.new) (K.faults sink.old) (K.faults sink.new) (summary_text history.now.entries) result }
{
    let entries = history.entries();
    put_pieces(
        sink,
        &[
            Piece::Text(b"lines "),
            Piece::Dec(answered_lines(entries) as u64),
            Piece::Text(b"\n"),
            Piece::Text(b"words "),
            Piece::Dec(count_words(entries) as u64),
            Piece::Text(b"\n"),
            Piece::Text(b"xor "),
            Piece::Hex(exclusive_or(entries)),
            Piece::Text(b"\n"),
        ],
    )
}
