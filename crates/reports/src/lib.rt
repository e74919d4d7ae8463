// What a report shows of a port, and of a stream there. Ports p and streams k are counted from 0.
#![tactic(auto)]

ghost use Rattle.std.specs.Prelude.{◌≡◌, ◌+◌};
ghost use Rattle.model.specs.State.{stream_at};
ghost use Rattle.model.specs.Reports.{word_of, report};
ghost use Rattle.model.specs.Table.{to_column, to_entry, to_declared, decode};
ghost use Rattle.table.specs.Places.{StandsOn, PortIn};
ghost use Rattle.reports.specs.Shown.{column_word, declared, entered, shown, ShowsStream, ShowsPort, ReportIn};

// The words of a report, each with its number in the table (`as`), and by it.
// None is a word too, printed and with the number 0: as Option each of word, number and From<u8> would have a case more.
#[derive(Clone, Copy, Default)]
pub enum ColumnShown {
    #[default]
    None,
    Advertise,
    Failed,
}

impl From<u8> for ColumnShown {
    ghost from_gives = { λ number column. column_word column ≡ word_of (to_column number 0 0) };

    #[tactic(auto, unfolding(crate::specs::Shown::column_word, model::specs::Reports::word_of, model::specs::Table::to_column))]
    fn from(number: u8) -> ColumnShown {
        match number {
            0 => ColumnShown::None,
            1 => ColumnShown::Advertise,
            _ => ColumnShown::Failed,
        }
    }
}

#[derive(Clone, Copy, Default)]
pub enum ListenerShown {
    #[default]
    None,
    AskingFailed,
    Ready,
    ReadyFailed,
}

impl From<u8> for ListenerShown {
    ghost from_gives = { λ number listener. declared listener ≡ to_declared number };

    #[tactic(auto, unfolding(crate::specs::Shown::declared, model::specs::Table::to_declared, model::specs::WrittenFrames::to_ready))]
    fn from(number: u8) -> ListenerShown {
        match number {
            0 => ListenerShown::None,
            1 => ListenerShown::AskingFailed,
            2 => ListenerShown::Ready,
            _ => ListenerShown::ReadyFailed,
        }
    }
}

#[derive(Clone, Copy, Default)]
pub enum EntryShown {
    #[default]
    None,
    Filter,
    Forward,
}

impl From<u8> for EntryShown {
    ghost from_gives = { λ number entry. entered entry ≡ to_entry number };

    #[tactic(auto, unfolding(crate::specs::Shown::entered, model::specs::Table::to_entry))]
    fn from(number: u8) -> EntryShown {
        match number {
            0 => EntryShown::None,
            1 => EntryShown::Filter,
            _ => EntryShown::Forward,
        }
    }
}

// What is reserved of a class on a port, and its limit.
#[derive(Clone, Copy, Default)]
pub struct ClassShown {
    pub total: u64,
    pub limit: u64,
}

// What is shown of a port: of both classes.
#[derive(Clone, Copy, Default)]
pub struct PortShown {
    pub a: ClassShown,
    pub b: ClassShown,
}

// What is shown of a stream on a port.
#[derive(Clone, Copy, Default)]
pub struct StreamShown {
    pub id: u64,
    pub column: ColumnShown,
    pub code: u8,
    pub listener: ListenerShown,
    pub entry: EntryShown,
}

// What report answers: how many streams are held, the port, and the stream at the place.
#[derive(Clone, Copy, Default)]
pub struct Reported {
    pub count: usize,
    pub port: PortShown,
    pub stream: StreamShown,
}

// Stream k, as the last advance settled it on port p.
fn stream_shown(table: &[u8], k: usize, p: usize) -> StreamShown
    requires { StandsOn table.now k p }
    ensures { ShowsStream (stream_at k (decode table.now)) p result }
{
    let result = table::result_at(table, k, p);
    StreamShown {
        id: table::id_at(table, k),
        column: result[table::result::COLUMN].into(),
        code: result[table::result::CODE],
        listener: result[table::result::DECLARED].into(),
        entry: result[table::result::ENTRY].into(),
    }
}

// The stream at a report's place; past the last one there is nothing to show.
fn stream_at(table: &[u8], p: usize, place: usize) -> StreamShown
    requires { PortIn table.now p }
    ensures { ShowsStream (stream_at place (decode table.now)) p result }
{
    let count = table::count(table);
    if place < count {
        return stream_shown(table, place, p);
    }
    StreamShown::default()
}

// Class totals and limits of port p.
fn port_shown(table: &[u8], p: usize) -> PortShown
    requires { PortIn table.now p }
    ensures { ShowsPort (decode table.now) p result }
{
    let totals = table::totals_at(table, p);
    let port = table::port_at(table, p);
    PortShown {
        a: ClassShown {
            total: octets::get(totals, 0, 5),
            limit: octets::get(port, table::port::LIMIT_A, 5),
        },
        b: ClassShown {
            total: octets::get(totals, table::TOTAL_B, 6),
            limit: octets::get(port, table::port::LIMIT_B, 5),
        },
    }
}

// The report of port p, with the stream at the report's place.
pub fn report_at(table: &[u8], p: usize, place: usize) -> Reported
    requires { ReportIn table.now p place }
    ensures { shown result ≡ report (decode table.now) (p + 1) place }
{
    Reported {
        count: table::count(table),
        port: port_shown(table, p),
        stream: stream_at(table, p, place),
    }
}
