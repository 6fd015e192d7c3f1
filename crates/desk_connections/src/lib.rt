// What the connection in a row asks, read as the struct of its kind.
#![tactic(auto)]

ghost use Rattle.std.specs.Prelude.{◌≡◌, [], get_or};
ghost use Rattle.desk_connections.specs.Rows.{Asks};

// Its target, its operation (0 where it has none), and where the octets of its sources stand in the message.
#[derive(Clone, Copy)]
pub struct Asked {
    pub target: u64,
    pub operation: u64,
    pub start: usize,
    pub end: usize,
}

fn nothing() -> Asked
    ensures { result ≡ record { target = 0; operation = 0; start = 0; end = 0 } }
{
    Asked {
        target: 0,
        operation: 0,
        start: 0,
        end: 0,
    }
}

// What a row asks as a connection, with the message beside it.
fn asked_of(row: &[u64; 50], s: &[u8]) -> Asked
    ensures { Asks s.now row.now result }
{
    let e = glow_entries::connection_at(row);
    let target = e.target;
    let sources = e.sources;
    let operation = e.operation;
    let span = glow_entries::span_of(s, sources);
    Asked {
        target: glow_entries::int_word(target),
        operation: glow_entries::number_word(operation),
        start: span.start,
        end: span.end,
    }
}

// What the row at place i asks; past the rows' end nothing.
pub fn asked_at(rows: &[[u64; 50]], i: usize, s: &[u8]) -> Asked
    ensures { Asks s.now (get_or rows.now i []) result }
{
    if rows.len() <= i {
        return nothing();
    }
    asked_of(&rows[i], s)
}
