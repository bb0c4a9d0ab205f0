// The walk over the lines of a script.
ghost use Rattle.std.specs.Prelude.{◌≡◌, ◌≤◌, ℕ, true, false, List, IfOk, Ok, Err, Option, None, OnOk, OnSome, IsSomeAnd, length, vec_len};
ghost use Rattle.script.specs.declared.commands.Call.{Call};
ghost use Rattle.script.specs.declared.fault.LineFault.TheVariants.{BadLine};
ghost use Rattle.script.specs.declared.commands.Command.{Command};
ghost use Rattle.script.specs.Commands.{command_line, Lawful};
ghost use Rattle.script.specs.Script.{unread, IsShorter};
ghost use Rattle.console.specs.Lines.{Adds, offered, KeepsRest};
ghost use Rattle.console.specs.Walking.{silent, ended, space_line, Bad, Done, Answered};

use crate::desk::Desk;
use script::commands::{Call, Command, Plan, read_command};
use script::fault::LineFault;
use script::lines::Script;
use std::alloc::AllocError;
use std::io;
use std::io::Write;

// Who does the calls of a script and puts their answers down.
pub(crate) trait Serves {
    // What a call says, without its newline, by what it is offered for its output; none where it is a bad line.
    ghost says: { Self → List ℕ → Call → Option (List ℕ) };

    // What a call leaves: the server, and the output.
    ghost leaves: { Self → List ℕ → Call → Self → List ℕ → Type 0 };

    // Does a call, or says that it is a bad line and alters nothing.
    fn serve(&mut self, call: Call, desk: &mut Desk) -> Result<(), LineFault>
        ensures bad { result ≡ Err BadLine → says self.old (offered desk.old) call ≡ None }
        ensures server { result ≡ Err BadLine → self.new ≡ self.old }
        ensures desk { result ≡ Err BadLine → desk.new ≡ desk.old }
        ensures says { OnOk result (IsSomeAnd (says self.old (offered desk.old) call) (λ line. Adds desk.old (ended line) desk.new)) }
        ensures leaves { OnOk result (leaves self.old (offered desk.old) call self.new (offered desk.new)) }
        ensures rest { OnOk result (KeepsRest desk.old desk.new) };
}

fn set_space(desk: &mut Desk, space: usize) -> Result<(), AllocError>
    ensures line { OnOk result ((length (offered desk.new) ≡ space) × Adds desk.old (ended (space_line space)) desk.new) }
    ensures output { space ≤ vec_len desk.old.output → desk.new.output ≡ desk.old.output }
{
    desk.offer(space)?;
    writeln!(desk.answers, "space {space}")
}

fn obey<S: Serves>(line: &[u8], server: &mut S, desk: &mut Desk) -> Result<Option<Plan>, LineFault>
    ensures done { IfOk result (λ plan. (c : Command) × (line.now ≡ command_line c) × Lawful c × Done S.says S.leaves c server.old desk.old plan server.new desk.new) }
    ensures bad { result ≡ Err BadLine → Bad S.says line.now server.old desk.old }
    ensures server { result ≡ Err BadLine → server.new ≡ server.old }
    ensures desk { result ≡ Err BadLine → desk.new ≡ desk.old }
{
    match read_command(desk.heap, line)? {
        Command::Archive(plan) => return Ok(Some(plan)),
        Command::Space(space) => set_space(desk, space)?,
        Command::Call(call) => server.serve(call, desk)?,
    }
    Ok(None)
}

// Empty lines and comments say nothing.
fn is_silent(line: &[u8]) -> bool
    ensures { result ≡ silent line.now }
{
    matches!(line, [] | [b'#', ..])
}

fn answer<S: Serves>(
    line: &[u8],
    number: u64,
    server: &mut S,
    desk: &mut Desk,
) -> Result<Option<Plan>, AllocError>
    ensures silent { silent line.now ≡ true → (result ≡ Ok None) × (server.new ≡ server.old) × (desk.new ≡ desk.old) }
    ensures answered { silent line.now ≡ false → IfOk result (λ plan. Answered S.says S.leaves line.now number server.old desk.old plan server.new desk.new) }
{
    if is_silent(line) {
        return Ok(None);
    }
    match obey(line, server, desk) {
        Err(LineFault::BadLine) => writeln!(desk.answers, "bad line {number}").map(|()| None),
        answered => answered.map_err(|_| AllocError),
    }
}

// A script that is answered, and where its answers go.
#[derive(Drop)]
pub(crate) struct Session<'a, W> {
    pub(crate) script: Script<'a>,
    pub(crate) desk: Desk,
    pub(crate) sink: W,
}

impl<'a, W: Write> Session<'a, W> {
    // Answers line by line, up to the next archive that is asked for, or to the end.
    pub(crate) fn walk<S: Serves>(&mut self, server: &mut S) -> io::Result<Option<Plan>>
        ensures { IfOk result (λ o. OnSome o (IsShorter (unread self.new.script) (unread self.old.script))) }
    {
        while let Some(line) = self.script.next() {
            let plan = answer(line, self.script.lines(), server, &mut self.desk)?;
            self.desk.write_piece(&mut self.sink)?;
            if plan.is_some() {
                return Ok(plan);
            }
        }
        Ok(None)
    }
}
