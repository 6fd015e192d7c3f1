// The kinds of entry of the Glow tree, by value: each is made from a row of the lent table and put into one.
#![tactic(auto)]

ghost use Rattle.std.specs.Prelude.{◌≡◌, ◌-◌, ◌≤◌, List, ℕ, Option, length, take, drop, Some, None};
ghost use Rattle.glow_rows.specs.Cell.{numbers, cell_of, word_of, int_of, value_of, number_in, octets_in};
ghost use Rattle.glow_rows.specs.Row.{cell_in};
ghost use Rattle.glow_entries.specs.Member.{number_cell, int_in, number_of, flag_cell, flag_of, part_cell, part_of, parent_word, parent_of};
ghost use Rattle.glow_entries.specs.Record.{parameter_row, parameter_of, parameter_read, node_row, node_of, node_read, matrix_row, matrix_of, matrix_read};
ghost use Rattle.glow_entries.specs.Record.{command_row, command_of, command_read, connection_row};
ghost use Rattle.glow_entries.specs.Record.{connection_of, connection_read, stream_row, stream_of, stream_read};
ghost use Rattle.glow_entries.specs.Record.{read_as, ConnectionWords, MatrixWords};
ghost use Rattle.glow_entries.specs.Member.{key_kind, key_cell, key_of};

use base_casts::{index, word};
use ber_values::Value;
use glow_rows::{
    Cell, KIND, PARENT, Span, absent, begun, cell_in, cell_of, int_of, is_same, kinds, places,
    put_in, tags, value_of,
};

// A part of the message, a text or a list of identifier numbers.
#[derive(Clone, Copy)]
pub struct Part {
    pub start: usize,
    pub len: usize,
}

// What an element is found by: its number, or as a qualified element its full path, a part of the message.
#[derive(Clone, Copy)]
pub enum Key {
    Number(i64),
    Path { start: usize, len: usize },
}

fn number_cell(n: Option<i64>) -> Cell
    ensures { result ≡ number_cell n }
{
    match n {
        None => absent(),
        Some(x) => cell_of(Value::Int(x)),
    }
}

fn flag_cell(f: Option<bool>) -> Cell
    ensures { result ≡ flag_cell f }
{
    match f {
        None => absent(),
        Some(x) => cell_of(Value::Bool(x)),
    }
}

fn part_cell(tag: u64, p: Option<Part>) -> Cell
    ensures { result ≡ part_cell tag p }
{
    match p {
        None => absent(),
        Some(part) => Cell {
            kind: tag,
            first: word(part.start),
            second: word(part.len),
        },
    }
}

fn key_cell(k: Key) -> Cell
    ensures { result ≡ key_cell k }
{
    match k {
        Key::Number(x) => cell_of(Value::Int(x)),
        Key::Path { start, len } => Cell {
            kind: tags::NUMBERS,
            first: word(start),
            second: word(len),
        },
    }
}

fn key_kind(k: Key, plain: u64, qualified: u64) -> u64
    ensures { result ≡ key_kind k plain qualified }
{
    match k {
        Key::Number(_) => plain,
        Key::Path { start: _, len: _ } => qualified,
    }
}

// The parent's place and 1; 0 where there is none.
pub fn parent_word(p: Option<u32>) -> u64
    ensures { result ≡ parent_word p }
{
    match p {
        None => 0,
        Some(i) => i as u64 + 1,
    }
}

fn number_at(row: &[u64; 50], c: usize) -> Option<i64>
    ensures { result ≡ number_of (cell_in row.now c) }
{
    let v = cell_in(row, c);
    if v.kind == tags::INTEGER && v.second == 0 {
        return Some(int_of(v.first));
    }
    None
}

// What a cell stands for as a number that is never absent.
fn int_at(row: &[u64; 50], c: usize) -> i64
    ensures { result ≡ int_in (cell_in row.now c) }
{
    int_of(glow_rows::number_of(cell_in(row, c)))
}

fn flag_at(row: &[u64; 50], c: usize) -> Option<bool>
    ensures { result ≡ flag_of (cell_in row.now c) }
{
    let v = cell_in(row, c);
    if v.kind == tags::BOOLEAN {
        return Some(v.first == 1);
    }
    None
}

fn part_at(row: &[u64; 50], tag: u64, c: usize) -> Option<Part>
    ensures { result ≡ part_of tag (cell_in row.now c) }
{
    let v = cell_in(row, c);
    if v.kind == tag {
        return Some(Part {
            start: index(v.first),
            len: index(v.second),
        });
    }
    None
}

fn value_at(row: &[u64; 50], c: usize) -> Value
    ensures { result ≡ value_of (cell_in row.now c) }
{
    let v = cell_in(row, c);
    value_of(v)
}

fn key_at(row: &[u64; 50], qualified: u64) -> Key
    ensures { result ≡ key_of qualified row.now }
{
    let v = cell_in(row, places::KEY);
    if row[KIND] == qualified {
        return Key::Path {
            start: index(v.first),
            len: index(v.second),
        };
    }
    Key::Number(int_of(glow_rows::number_of(v)))
}

fn parent_at(row: &[u64; 50]) -> Option<u32>
    ensures { result ≡ parent_of row.now }
{
    let w = row[PARENT];
    if w == 0 {
        return None;
    }
    if w <= 0x100000000 {
        return Some((w - 1) as u32);
    }
    None
}

// The 64 bits of an integer, in two's complement.
pub fn int_word(z: i64) -> u64
    ensures { word_of z ≡ result }
{
    let v = cell_of(Value::Int(z));
    v.first
}

// The same of a number, 0 where there is none.
pub fn number_word(n: Option<i64>) -> u64
    ensures { number_in (number_cell n) ≡ result }
{
    glow_rows::number_of(number_cell(n))
}

// The number that 64 bits are.
pub fn number_from(w: u64) -> Option<i64>
    ensures { result ≡ Some (int_of w) }
{
    Some(int_of(w))
}

// The octets of a list of identifier numbers; none where there is no list, or where they do not lie in the message.
pub fn span_of(s: &[u8], p: Option<Part>) -> Span
    ensures s_value { take (result.end - result.start) (drop result.start s.now) ≡ octets_in s.now (part_cell numbers p) }
    ensures start_le_end { (result.start ≤ result.end) × (result.end ≤ length s.now) }
{
    glow_rows::span_of(s, part_cell(tags::NUMBERS, p))
}

// A kind of entry: made from a row of the lent table, and put into one.
pub trait Entry: Copy {
    // The row of an entry, and the entry that a row stands for.
    ghost row_of: { Self → List ℕ };

    ghost entry_of: { List ℕ → Self };

    fn row(self) -> [u64; 50]
        ensures { result ≡ row_of self };

    // Of a row that is of another kind, any entry serves: the row made of it is another.
    fn at(row: &[u64; 50]) -> Self
        ensures { result ≡ entry_of row.now };
}

// A kind of entry that rows are read as.
pub trait FromRow: Entry {
    // What a row is read as.
    ghost read_of: { List ℕ → Option Self };

    // The entry of a row, or that the row is none of this kind.
    fn of(row: &[u64; 50]) -> Option<Self>
        ensures { result ≡ read_of row.now };
}

// The entry that a row stands for, where it is the row of that entry. That makes a row one of its kind, but for a stream entry, whose value is never absent:
// `FromRow::of` asks that too.
pub fn read<E: Entry>(row: &[u64; 50]) -> Option<E>
    ensures { result ≡ read_as E.entry_of E.row_of Some None row.now }
{
    let e = E::at(row);
    let again = e.row();
    if is_same(row, &again) { Some(e) } else { None }
}

// A parameter, with its value, its minimum and its maximum, of any kind each.
#[derive(Clone, Copy)]
pub struct Parameter {
    pub parent: Option<u32>,
    pub key: Key,
    pub identifier: Option<Part>,
    pub description: Option<Part>,
    pub value: Value,
    pub minimum: Value,
    pub maximum: Value,
    pub access: Option<i64>,
    pub factor: Option<i64>,
    pub online: Option<bool>,
    pub step: Option<i64>,
    pub stream: Option<i64>,
}

impl Entry for Parameter {
    ghost row_of = { parameter_row };

    ghost entry_of = { parameter_of };

    fn row(self) -> [u64; 50] {
        let mut row = begun(
            key_kind(self.key, kinds::PARAMETER, kinds::QUALIFIED_PARAMETER),
            parent_word(self.parent),
        );
        put_in(&mut row, places::KEY, key_cell(self.key));
        put_in(
            &mut row,
            places::IDENTIFIER,
            part_cell(tags::TEXT, self.identifier),
        );
        put_in(
            &mut row,
            places::DESCRIPTION,
            part_cell(tags::TEXT, self.description),
        );
        put_in(&mut row, places::VALUE, cell_of(self.value));
        put_in(&mut row, places::MINIMUM, cell_of(self.minimum));
        put_in(&mut row, places::MAXIMUM, cell_of(self.maximum));
        put_in(&mut row, places::ACCESS, number_cell(self.access));
        put_in(&mut row, places::FACTOR, number_cell(self.factor));
        put_in(&mut row, places::ONLINE, flag_cell(self.online));
        put_in(&mut row, places::STEP, number_cell(self.step));
        put_in(&mut row, places::STREAM, number_cell(self.stream));
        row
    }

    #[tactic(auto, unfolding(crate::specs::Record::parameter_of))]
    fn at(row: &[u64; 50]) -> Parameter {
        Parameter {
            parent: parent_at(row),
            key: key_at(row, kinds::QUALIFIED_PARAMETER),
            identifier: part_at(row, tags::TEXT, places::IDENTIFIER),
            description: part_at(row, tags::TEXT, places::DESCRIPTION),
            value: value_at(row, places::VALUE),
            minimum: value_at(row, places::MINIMUM),
            maximum: value_at(row, places::MAXIMUM),
            access: number_at(row, places::ACCESS),
            factor: number_at(row, places::FACTOR),
            online: flag_at(row, places::ONLINE),
            step: number_at(row, places::STEP),
            stream: number_at(row, places::STREAM),
        }
    }
}

// The row of a parameter.
pub fn parameter_row(e: Parameter) -> [u64; 50]
    ensures { result ≡ parameter_row e }
{
    e.row()
}

// The parameter of a row, or that the row is none's.
#[tactic(auto, unfolding(crate::specs::Record::parameter_read))]
pub fn parameter_of(row: &[u64; 50]) -> Option<Parameter>
    ensures { result ≡ parameter_read row.now }
{
    read(row)
}

impl FromRow for Parameter {
    ghost read_of = { parameter_read };

    fn of(row: &[u64; 50]) -> Option<Parameter> {
        parameter_of(row)
    }
}

// A node.
#[derive(Clone, Copy)]
pub struct Node {
    pub parent: Option<u32>,
    pub key: Key,
    pub identifier: Option<Part>,
    pub description: Option<Part>,
    pub root: Option<bool>,
    pub online: Option<bool>,
}

impl Entry for Node {
    ghost row_of = { node_row };

    ghost entry_of = { node_of };

    fn row(self) -> [u64; 50] {
        let mut row = begun(
            key_kind(self.key, kinds::NODE, kinds::QUALIFIED_NODE),
            parent_word(self.parent),
        );
        put_in(&mut row, places::KEY, key_cell(self.key));
        put_in(
            &mut row,
            places::IDENTIFIER,
            part_cell(tags::TEXT, self.identifier),
        );
        put_in(
            &mut row,
            places::DESCRIPTION,
            part_cell(tags::TEXT, self.description),
        );
        put_in(&mut row, places::ROOT, flag_cell(self.root));
        put_in(&mut row, places::NODE_ONLINE, flag_cell(self.online));
        row
    }

    #[tactic(auto, unfolding(crate::specs::Record::node_of))]
    fn at(row: &[u64; 50]) -> Node {
        Node {
            parent: parent_at(row),
            key: key_at(row, kinds::QUALIFIED_NODE),
            identifier: part_at(row, tags::TEXT, places::IDENTIFIER),
            description: part_at(row, tags::TEXT, places::DESCRIPTION),
            root: flag_at(row, places::ROOT),
            online: flag_at(row, places::NODE_ONLINE),
        }
    }
}

// The row of a node.
pub fn node_row(e: Node) -> [u64; 50]
    ensures { result ≡ node_row e }
{
    e.row()
}

// The node of a row, or that the row is none's.
#[tactic(auto, unfolding(crate::specs::Record::node_read))]
pub fn node_of(row: &[u64; 50]) -> Option<Node>
    ensures { result ≡ node_read row.now }
{
    read(row)
}

impl FromRow for Node {
    ghost read_of = { node_read };

    fn of(row: &[u64; 50]) -> Option<Node> {
        node_of(row)
    }
}

// A matrix.
#[derive(Clone, Copy)]
pub struct Matrix {
    pub parent: Option<u32>,
    pub key: Key,
    pub identifier: Option<Part>,
    pub description: Option<Part>,
    pub matrix_type: Option<i64>,
    pub mode: Option<i64>,
    pub targets: Option<i64>,
    pub sources: Option<i64>,
    pub total_limit: Option<i64>,
    pub target_limit: Option<i64>,
}

impl Entry for Matrix {
    ghost row_of = { matrix_row };

    ghost entry_of = { matrix_of };

    fn row(self) -> [u64; 50] {
        let mut row = begun(
            key_kind(self.key, kinds::MATRIX, kinds::QUALIFIED_MATRIX),
            parent_word(self.parent),
        );
        put_in(&mut row, places::KEY, key_cell(self.key));
        put_in(
            &mut row,
            places::IDENTIFIER,
            part_cell(tags::TEXT, self.identifier),
        );
        put_in(
            &mut row,
            places::DESCRIPTION,
            part_cell(tags::TEXT, self.description),
        );
        put_in(&mut row, places::MATRIX_TYPE, number_cell(self.matrix_type));
        put_in(&mut row, places::MODE, number_cell(self.mode));
        put_in(&mut row, places::TARGETS, number_cell(self.targets));
        put_in(&mut row, places::SOURCES, number_cell(self.sources));
        put_in(&mut row, places::TOTAL_LIMIT, number_cell(self.total_limit));
        put_in(
            &mut row,
            places::TARGET_LIMIT,
            number_cell(self.target_limit),
        );
        row
    }

    #[tactic(auto, unfolding(crate::specs::Record::matrix_of))]
    fn at(row: &[u64; 50]) -> Matrix {
        Matrix {
            parent: parent_at(row),
            key: key_at(row, kinds::QUALIFIED_MATRIX),
            identifier: part_at(row, tags::TEXT, places::IDENTIFIER),
            description: part_at(row, tags::TEXT, places::DESCRIPTION),
            matrix_type: number_at(row, places::MATRIX_TYPE),
            mode: number_at(row, places::MODE),
            targets: number_at(row, places::TARGETS),
            sources: number_at(row, places::SOURCES),
            total_limit: number_at(row, places::TOTAL_LIMIT),
            target_limit: number_at(row, places::TARGET_LIMIT),
        }
    }
}

// The row of a matrix.
pub fn matrix_row(e: Matrix) -> [u64; 50]
    ensures { result ≡ matrix_row e }
{
    e.row()
}

// What a row stands for as a matrix: of a row that is one's, that matrix.
pub fn matrix_at(row: &[u64; 50]) -> Matrix
    ensures value { result ≡ matrix_of row.now }
    ensures matrix_words { MatrixWords row.now result }
{
    Matrix::at(row)
}

// The matrix of a row, or that the row is none's.
#[tactic(auto, unfolding(crate::specs::Record::matrix_read))]
pub fn matrix_of(row: &[u64; 50]) -> Option<Matrix>
    ensures { result ≡ matrix_read row.now }
{
    read(row)
}

impl FromRow for Matrix {
    ghost read_of = { matrix_read };

    fn of(row: &[u64; 50]) -> Option<Matrix> {
        matrix_of(row)
    }
}

// A command.
#[derive(Clone, Copy)]
pub struct Command {
    pub parent: Option<u32>,
    pub number: i64,
    pub mask: Option<i64>,
}

impl Entry for Command {
    ghost row_of = { command_row };

    ghost entry_of = { command_of };

    fn row(self) -> [u64; 50] {
        let mut row = begun(kinds::COMMAND, parent_word(self.parent));
        put_in(
            &mut row,
            places::COMMAND_NUMBER,
            cell_of(Value::Int(self.number)),
        );
        put_in(&mut row, places::MASK, number_cell(self.mask));
        row
    }

    #[tactic(auto, unfolding(crate::specs::Record::command_of))]
    fn at(row: &[u64; 50]) -> Command {
        Command {
            parent: parent_at(row),
            number: int_at(row, places::COMMAND_NUMBER),
            mask: number_at(row, places::MASK),
        }
    }
}

// The row of a command.
pub fn command_row(e: Command) -> [u64; 50]
    ensures { result ≡ command_row e }
{
    e.row()
}

// The command of a row, or that the row is none's.
#[tactic(auto, unfolding(crate::specs::Record::command_read))]
pub fn command_of(row: &[u64; 50]) -> Option<Command>
    ensures { result ≡ command_read row.now }
{
    read(row)
}

impl FromRow for Command {
    ghost read_of = { command_read };

    fn of(row: &[u64; 50]) -> Option<Command> {
        command_of(row)
    }
}

// A connection of a matrix.
#[derive(Clone, Copy)]
pub struct Connection {
    pub parent: Option<u32>,
    pub target: i64,
    pub sources: Option<Part>,
    pub operation: Option<i64>,
}

impl Entry for Connection {
    ghost row_of = { connection_row };

    ghost entry_of = { connection_of };

    fn row(self) -> [u64; 50] {
        let mut row = begun(kinds::CONNECTION, parent_word(self.parent));
        put_in(&mut row, places::TARGET, cell_of(Value::Int(self.target)));
        put_in(
            &mut row,
            places::CONNECTION_SOURCES,
            part_cell(tags::NUMBERS, self.sources),
        );
        put_in(&mut row, places::OPERATION, number_cell(self.operation));
        row
    }

    #[tactic(auto, unfolding(crate::specs::Record::connection_of))]
    fn at(row: &[u64; 50]) -> Connection {
        Connection {
            parent: parent_at(row),
            target: int_at(row, places::TARGET),
            sources: part_at(row, tags::NUMBERS, places::CONNECTION_SOURCES),
            operation: number_at(row, places::OPERATION),
        }
    }
}

// The row of a connection.
pub fn connection_row(e: Connection) -> [u64; 50]
    ensures { result ≡ connection_row e }
{
    e.row()
}

// What a row stands for as a connection: of a row that is one's, that connection.
pub fn connection_at(row: &[u64; 50]) -> Connection
    ensures value { result ≡ connection_of row.now }
    ensures connection_words { ConnectionWords row.now result }
{
    Connection::at(row)
}

// The connection of a row, or that the row is none's.
#[tactic(auto, unfolding(crate::specs::Record::connection_read))]
pub fn connection_of(row: &[u64; 50]) -> Option<Connection>
    ensures { result ≡ connection_read row.now }
{
    read(row)
}

impl FromRow for Connection {
    ghost read_of = { connection_read };

    fn of(row: &[u64; 50]) -> Option<Connection> {
        connection_of(row)
    }
}

// A stream entry.
#[derive(Clone, Copy)]
pub struct Stream {
    pub parent: Option<u32>,
    pub identifier: i64,
    pub value: Value,
}

impl Entry for Stream {
    ghost row_of = { stream_row };

    ghost entry_of = { stream_of };

    fn row(self) -> [u64; 50] {
        let mut row = begun(kinds::STREAM_ENTRY, parent_word(self.parent));
        put_in(
            &mut row,
            places::STREAM_NUMBER,
            cell_of(Value::Int(self.identifier)),
        );
        put_in(&mut row, places::STREAM_VALUE, cell_of(self.value));
        row
    }

    #[tactic(auto, unfolding(crate::specs::Record::stream_of))]
    fn at(row: &[u64; 50]) -> Stream {
        Stream {
            parent: parent_at(row),
            identifier: int_at(row, places::STREAM_NUMBER),
            value: value_at(row, places::STREAM_VALUE),
        }
    }
}

// The row of a stream entry.
pub fn stream_row(e: Stream) -> [u64; 50]
    ensures { result ≡ stream_row e }
{
    e.row()
}

// The stream entry of a row, or that the row is none's.
pub fn stream_of(row: &[u64; 50]) -> Option<Stream>
    ensures { result ≡ stream_read row.now }
{
    if cell_in(row, places::STREAM_VALUE).kind == tags::ABSENT {
        return None;
    }
    read(row)
}

impl FromRow for Stream {
    ghost read_of = { stream_read };

    fn of(row: &[u64; 50]) -> Option<Stream> {
        stream_of(row)
    }
}
