// Texts, put into octets that the caller lends. None of the public functions asks anything of its arguments.
#![tactic(auto)]

ghost use Rattle.std.specs.Prelude.{List, ℕ, ◌≡◌, ◌∷◌};
ghost use Rattle.reports.specs.Shown.{column_word, declared, entered};
ghost use Rattle.console.specs.Texts.{Puts};
ghost use Rattle.console.specs.Words.{column_text, listener_text, entry_text, shown_text};

use reports::{ColumnShown, EntryShown, ListenerShown, StreamShown};

mod text;

pub use text::Text;

// What is printed as a word.
trait Worded {
    ghost text: { Self → List ℕ };

    fn word(&self) -> &'static [u8]
        ensures { result.now ≡ text self.now };
}

impl Worded for ColumnShown {
    ghost text = { λ column. column_text (column_word column) };

    #[tactic(auto, unfolding(crate::specs::Words::column_text, reports::specs::Shown::column_word))]
    fn word(&self) -> &'static [u8] {
        match self {
            ColumnShown::None => b"none",
            ColumnShown::Advertise => b"advertise",
            ColumnShown::Failed => b"failed",
        }
    }
}

impl Worded for ListenerShown {
    ghost text = { λ listener. listener_text (declared listener) };

    #[tactic(auto, unfolding(crate::specs::Words::listener_text, reports::specs::Shown::declared))]
    fn word(&self) -> &'static [u8] {
        match self {
            ListenerShown::None => b"none",
            ListenerShown::AskingFailed => b"asking",
            ListenerShown::Ready => b"ready",
            ListenerShown::ReadyFailed => b"readyfailed",
        }
    }
}

impl Worded for EntryShown {
    ghost text = { λ entry. entry_text (entered entry) };

    #[tactic(auto, unfolding(crate::specs::Words::entry_text, reports::specs::Shown::entered))]
    fn word(&self) -> &'static [u8] {
        match self {
            EntryShown::None => b"none",
            EntryShown::Filter => b"filter",
            EntryShown::Forward => b"forward",
        }
    }
}

// A space, and a word behind it.
fn put_word<W: Worded>(text: &mut Text<'_>, word: &W)
    ensures { Puts text.old (32 ∷ W.text word.now) text.new }
{
    text.put(b" ");
    text.put(word.word());
}

// What a report shows of a stream on a port: column, code, Listener and entry, a space before each.
pub fn put_shown(text: &mut Text<'_>, stream: StreamShown)
    ensures { Puts text.old
        (shown_text (column_word stream.column) stream.code (declared stream.listener) (entered stream.entry)) text.new }
{
    put_word(text, &stream.column);
    text.put_number(stream.code as u64);
    put_word(text, &stream.listener);
    put_word(text, &stream.entry);
}
