// Reads a script of calls on standard input, and prints every answer.
#![tactic(auto)]

ghost use Rattle.std.specs.Prelude.{◌≡◌, IfOk, OnOk, OnSome, length};
ghost use Rattle.script.specs.Script.{unread, IsShorter};
ghost use Rattle.console.specs.Lines.{Adds, offered};
ghost use Rattle.console.specs.Walking.{ended, archive_line, most_space};

mod answers;
mod archive;
mod desk;
mod offering;
mod printing;
mod walk;

use archive::{Archive, NoArchive};
use bench_suite::word::Word;
use desk::{Desk, MOST_SPACE};
use floors::layer::FloorLayer;
use ratchet::copies::Holding;
use ratchet::ids::Id;
use ratchet::suite::Suite;
use script::commands::Plan;
use script::lines::Script;
use std::alloc::AllocError;
use std::io;
use std::io::{Read, Write};
use store::meaning::Store;
use tables::table::Table;
use walk::Session;

// What is said of a new archive; its calls are offered the most space.
fn greet<P: Suite, S: Store<Id, Holding<P>>>(store: &S, desk: &mut Desk) -> Result<(), AllocError>
    ensures line { OnOk result (Adds desk.old (ended (archive_line (S.means store.now))) desk.new) }
    ensures space { OnOk result (length (offered desk.new) ≡ most_space) }
{
    desk.offer(MOST_SPACE)?;
    writeln!(desk.answers, "archive {} {}", store.free(), store.floor())
}

// Answers over a new archive, up to the next one or the end.
fn serve_over<P: Suite, S: Store<Id, Holding<P>> + Drop, W: Write>(
    store: S,
    session: &mut Session<'_, W>,
) -> io::Result<Option<Plan>>
    ensures { IfOk result (λ o. OnSome o (IsShorter (unread session.new.script) (unread session.old.script))) }
{
    greet(&store, &mut session.desk)?;
    let mut archive = Archive {
        store,
        sender: None,
    };
    session.walk(&mut archive)
}

// Makes an archive, and answers up to the next one or the end.
fn serve<P: Suite, W: Write>(plan: Plan, session: &mut Session<'_, W>) -> io::Result<Option<Plan>>
    ensures { IfOk result (λ o. OnSome o (IsShorter (unread session.new.script) (unread session.old.script))) }
{
    let mut slots = vec![in session.desk.heap; None::<(Id, Holding<P>)>; plan.places]?;
    let store = FloorLayer {
        below: Table::over(&mut slots),
        floor: plan.floor,
    };
    serve_over(store, session)
}

fn run<W: Write>(session: &mut Session<'_, W>) -> io::Result<()> {
    let mut plan = session.walk(&mut NoArchive)?;
    while let Some(p) = plan {
        plan = serve::<Word, W>(p, session)?;
    }
    session.desk.write_out(&mut session.sink)
}

fn main(rt: HostRuntime) -> io::Result<()> {
    let heap = rt.alloc();
    let mut text = Vec::new(heap);
    rt.stdin().read_to_end(&mut text)?;
    run(&mut Session {
        script: Script::new(&text),
        desk: Desk::new(heap)?,
        sink: rt.stdout(),
    })
}
