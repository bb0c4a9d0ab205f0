ghost use Rattle.std.specs.Prelude.{◌+◌, ◌≤◌, length};
ghost use Rattle.ratchet.specs.Ids.{id_bytes};
ghost use Rattle.copy_bytes.specs.Placed.{Wrote};

use ratchet::ids::Id;
use ratchet::suite::Suite;

// A lent output, and the place that writing has come to in it.
#[derive(Drop)]
pub(crate) struct Pen<'a> {
    pub(crate) out: &'a mut [u8],
    pub(crate) at: usize,
}

impl Pen<'_> {
    pub(crate) fn put(&mut self, bytes: &[u8])
        requires { self.old.at + length bytes.now ≤ length self.old.out.now }
        ensures { Wrote self.old bytes.now self.new }
    {
        let end = self.at + bytes.len();
        self.out[self.at..end].copy_from_slice(bytes);
        self.at = end;
    }

    pub(crate) fn part<P: Suite>(&mut self, p: P)
        requires { self.old.at + P.suite.width ≤ length self.old.out.now }
        ensures { Wrote self.old (P.suite.encode p) self.new }
    {
        let end = self.at + P::width();
        p.write(&mut self.out[self.at..end]);
        self.at = end;
    }

    pub(crate) fn id(&mut self, id: Id)
        requires { self.old.at + 32 ≤ length self.old.out.now }
        ensures { Wrote self.old (id_bytes id) self.new }
    {
        self.put(&id.w0.to_be_bytes());
        self.put(&id.w1.to_be_bytes());
        self.put(&id.w2.to_be_bytes());
        self.put(&id.w3.to_be_bytes());
    }
}
