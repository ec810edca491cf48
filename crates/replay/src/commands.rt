// The commands of a script: what a line answers, and the session that it leaves.
use crate::command::{Command, command_of, is_silent};
use crate::replies::{Fault, Session, first_session, put_fault, put_name};
use crate::{
    bank_calls, device_calls, device_text, function_calls, key_calls, layout_calls, load_calls,
};

fn call(
    session: &mut Session,
    bank: &mut [[f64; 113]; 65],
    command: Command,
    line: &[u8],
    out: &mut [u8],
) -> Result<usize, Fault> {
    match command {
        Command::Card => key_calls::card(session, false, line, out),
        Command::CardRaw => key_calls::card(session, true, line, out),
        Command::Geometry => key_calls::geometry(session, false, line, out),
        Command::GeometryRaw => key_calls::geometry(session, true, line, out),
        Command::Call => function_calls::put_call(line, out),
        Command::Scale => device_calls::scale(session, line, out),
        Command::Bind => device_calls::bind(session, line, out),
        Command::Eval => device_calls::eval(session, line, out),
        Command::Commit => device_calls::commit(session, line, out),
        Command::Load => load_calls::load(session, line, out),
        Command::Resolve => load_calls::resolve(session, line, out),
        Command::LoadResolved => load_calls::load_resolved(session, line, out),
        Command::Noise => device_calls::noise(session, line, out),
        Command::Reactances => device_calls::reactances(session, out),
        Command::State => Ok(device_text::put_state(out, session.device)),
        Command::Extra => layout_calls::extra(session, out),
        Command::Cells => layout_calls::cells(session, line, out),
        Command::Place => bank_calls::place(session, bank, line, out),
        Command::LoadBlock => bank_calls::load_block(bank, line, out),
        Command::LoadBridge => bank_calls::load_bridge(bank, line, out),
        Command::Reset => {
            let first = session.first;
            *session = first_session(first);
            *bank = [first; 65];
            Ok(put_name(out, line))
        }
    }
}

// What a line answers: the answer's text stands in out from its start on, up to the end that is returned.
pub fn answer(
    session: &mut Session,
    bank: &mut [[f64; 113]; 65],
    line: &[u8],
    out: &mut [u8],
) -> usize {
    if is_silent(line) {
        return 0;
    }
    let Some(command) = command_of(line) else {
        return put_fault(out, Fault::Bad);
    };
    match call(session, bank, command, line, out) {
        Ok(end) => end,
        Err(fault) => put_fault(out, fault),
    }
}
