// Which command a line is, by its first word and the count of its words.
use crate::script::word::{word, word_count};

#[derive(Clone, Copy)]
pub enum Command {
    Card,
    CardRaw,
    Geometry,
    GeometryRaw,
    Call,
    Scale,
    Bind,
    Eval,
    Commit,
    Load,
    Resolve,
    LoadResolved,
    Reset,
    Noise,
    Reactances,
    State,
    Extra,
    Cells,
    Place,
    LoadBlock,
    LoadBridge,
}

// A command by its name.
fn named(w: &[u8]) -> Option<Command> {
    match w {
        b"card" => Some(Command::Card),
        b"cardraw" => Some(Command::CardRaw),
        b"geometry" => Some(Command::Geometry),
        b"geometryraw" => Some(Command::GeometryRaw),
        b"call" => Some(Command::Call),
        b"scale" => Some(Command::Scale),
        b"bind" => Some(Command::Bind),
        b"eval" => Some(Command::Eval),
        b"commit" => Some(Command::Commit),
        b"load" => Some(Command::Load),
        b"resolve" => Some(Command::Resolve),
        b"loadresolved" => Some(Command::LoadResolved),
        b"reset" => Some(Command::Reset),
        b"noise" => Some(Command::Noise),
        b"reactances" => Some(Command::Reactances),
        b"state" => Some(Command::State),
        b"extra" => Some(Command::Extra),
        b"cells" => Some(Command::Cells),
        b"place" => Some(Command::Place),
        b"loadblock" => Some(Command::LoadBlock),
        b"loadbridge" => Some(Command::LoadBridge),
        _ => None,
    }
}

// How many words a line of a command has, where the command says it.
fn words_of(command: Command) -> Option<usize> {
    match command {
        Command::Card
        | Command::CardRaw
        | Command::Geometry
        | Command::GeometryRaw
        | Command::Call => None,
        Command::Reset | Command::Reactances | Command::State | Command::Extra => Some(1),
        Command::Scale | Command::Commit | Command::Place => Some(2),
        Command::Resolve | Command::Noise => Some(3),
        Command::LoadResolved | Command::Cells => Some(4),
        Command::Bind | Command::Load => Some(6),
        Command::Eval => Some(7),
        Command::LoadBridge => Some(8),
        Command::LoadBlock => Some(9),
    }
}

// Blank lines and those that start with `#` have no answer. A line of more than 65,536 bytes is never silent.
pub fn is_silent(line: &[u8]) -> bool {
    line.len() <= 65536 && (line.iter().all(|b| *b == b' ') || line[0] == b'#')
}

// A line's command; none for a line that is not understood. A line of more than 65,536 bytes is no command, whatever its bytes are.
pub fn command_of(line: &[u8]) -> Option<Command> {
    if line.len() > 65536 {
        return None;
    }
    let command = named(word(line, 0))?;
    match words_of(command) {
        Some(n) if n != word_count(line) => None,
        _ => Some(command),
    }
}
