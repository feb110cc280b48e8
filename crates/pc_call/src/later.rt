ghost use Rattle.std.specs.Prelude.{◌≡◌, ◌++◌, [], ◌∷◌, OnOk, position};
ghost use Rattle.pc_call.specs.Outbox.{has_put, is_later_of, waiting_put, without_put};

use pc_base::NoMemory;
use pc_proto::Request;
use std::alloc::Global;
use std::marker::Model;

/// A put that was told written as it went out, under this number.
#[derive(Debug, Drop)]
pub struct LaterPut {
    pub number: u64,
    pub request: Request,
}

/// The puts of the open transaction that wait in its session's outbox: no call has waited for them since they went out. By sequence.
#[derive(Debug, Drop)]
pub struct Later {
    puts: Vec<LaterPut>,
}

impl Model for Later {
    ghost use Rattle.std.specs.Prelude.{List};
    ghost use Rattle.pc_call.specs.declared.later.LaterPut.{LaterPut};

    ghost Value = { List LaterPut };

    ghost view = { λ later. later.puts.items };
}

impl Later {
    /// No put waits.
    pub fn new(alloc: Global) -> Later
        ensures { result ≡ [] }
    {
        Later {
            puts: Vec::new(alloc),
        }
    }

    /// This put went out under this number, and waits.
    pub fn add(&mut self, number: u64, request: Request) -> Result<(), NoMemory>
        ensures { OnOk result (self.new ≡ self.old ++ record { number = number; request = request } ∷ []) }
    {
        self.puts.push(LaterPut { number, request })?;
        Ok(())
    }

    /// Takes the put of this sequence, which waits no longer. None where it does not wait.
    pub fn take(&mut self, seq: u32) -> Option<LaterPut>
        ensures found { result ≡ waiting_put seq self.old }
        ensures left { self.new ≡ without_put seq self.old }
    {
        let place = self.place_of(seq)?;
        Some(self.puts.remove(place))
    }

    /// The place of the put of this sequence, if it waits.
    fn place_of(&self, seq: u32) -> Option<usize>
        ensures { result ≡ position (is_later_of seq) self.now }
    {
        self.puts
            .iter()
            .position(|put| is_put_of(&put.request, seq))
    }

    /// None of them waits any more.
    pub fn clear(&mut self)
        ensures { self.new ≡ [] }
    {
        self.puts.clear();
    }
}

/// Whether the request puts the write of this sequence.
pub(crate) fn is_put_of(request: &Request, seq: u32) -> bool
    ensures { result ≡ has_put seq request.now }
{
    match request {
        Request::Put { seq: own, .. } => *own == seq,
        _ => false,
    }
}
