//! The calls of a host in memory.
ghost use Rattle.std.specs.Prelude.{◌≡◌, ◌≤◌, ◌<◌, ◌+◌, ◌⊎◌, ◌++◌, [], ◌∷◌, List, ℕ, Some, IsTrue, OnOk, OnErr, IfOk, is_err, length, take, drop, min, replicate, true, false, if◌then◌else◌};
ghost use Rattle.ex_base.specs.Bytes.{part};
ghost use Rattle.disk_model.specs.Outside.{Rose, Adds, DiskOnly, WritesNothing, ReadsOnly, SourceOnly, SinkOnly};
ghost use Rattle.disk_model.specs.Calls.{Tears, Wrote, Settles, MakesCalls, MakesAtMost};
ghost use Rattle.memory_host.specs.Stays.{Stays};
ghost use Rattle.memory_host.specs.Replay.{after_write, after_sync, after_put};
ghost use Rattle.memory_host.specs.Plan.{IsLying};
ghost use Rattle.memory_host.specs.declared.host.Call.TheVariants.{Other};
ghost use Rattle.memory_host.specs.Host.{means, is_world_of, calls_of, plan_of, state_of, left_of, CallLeaves, HasCalls};

use super::{Call, MemoryHost, count, note, send, write_over};
use disk_model::{Disk, Failed, Host, Sink, Source, World};

impl MemoryHost {
    // Notes a call that changes nothing.
    fn pass(&mut self) -> bool
        ensures stays { Stays (means self.old) (means self.new) }
        ensures disk_faults { (means self.new).disk_faults ≡ (means self.old).disk_faults }
        ensures read_faults { (means self.new).read_faults ≡ (means self.old).read_faults }
        ensures write_faults { (means self.new).write_faults ≡ (means self.old).write_faults }
        ensures disk { self.new.disk.items ≡ self.old.disk.items }
        ensures left { (self.new.script.items ≡ self.old.script.items)
            × (self.new.taken ≡ self.old.taken) }
        ensures run { HasCalls self.old self.new (if result then self.old.calls.items ++ Other
            ∷ [] else self.old.calls.items) }
    {
        note(&mut self.calls, Call::Other)
    }

    // Counts a fault of the disk.
    fn disk_fault(&mut self) -> Failed
        ensures stays { Stays (means self.old) (means self.new) }
        ensures rose { Rose (means self.old).disk_faults (means self.new).disk_faults }
        ensures read_faults { (means self.new).read_faults ≡ (means self.old).read_faults }
        ensures write_faults { (means self.new).write_faults ≡ (means self.old).write_faults }
        ensures run { HasCalls self.old self.new self.old.calls.items }
    {
        count(&mut self.disk_faults);
        Failed
    }

    // Counts a fault of the source.
    fn read_fault(&mut self) -> Failed
        ensures stays { Stays (means self.old) (means self.new) }
        ensures rose { Rose (means self.old).read_faults (means self.new).read_faults }
        ensures disk_faults { (means self.new).disk_faults ≡ (means self.old).disk_faults }
        ensures write_faults { (means self.new).write_faults ≡ (means self.old).write_faults }
        ensures run { HasCalls self.old self.new self.old.calls.items }
    {
        count(&mut self.read_faults);
        Failed
    }

    // Counts a fault of the sink.
    fn write_fault(&mut self) -> Failed
        ensures stays { Stays (means self.old) (means self.new) }
        ensures rose { Rose (means self.old).write_faults (means self.new).write_faults }
        ensures disk_faults { (means self.new).disk_faults ≡ (means self.old).disk_faults }
        ensures read_faults { (means self.new).read_faults ≡ (means self.old).read_faults }
        ensures run { HasCalls self.old self.new self.old.calls.items }
    {
        count(&mut self.write_faults);
        Failed
    }
}

impl World for MemoryHost {
    ghost outside = { means };

    ghost is_world = { is_world_of };
}

impl Disk for MemoryHost {
    fn size(&self) -> u64 {
        self.disk.len() as u64
    }

    fn faults(&self) -> u64 {
        self.disk_faults
    }

    fn read(&mut self, at: u64, out: &mut [u8]) -> Result<(), Failed>
        requires { at + length out.old ≤ (means self.old).size }
        ensures only { ReadsOnly (means self.old) (means self.new) }
        ensures cause { OnErr result (Rose (means self.old).disk_faults
            (means self.new).disk_faults) }
        ensures at_most_once { MakesAtMost 1 (means self.old) (means self.new) }
        ensures once { OnOk result (MakesCalls 1 (means self.old) (means self.new)) }
        ensures bytes { OnOk result ((d : List ℕ) → (means self.old).disk ≡ Some d
            → out.new ≡ part d at (length out.old)) }

        // A read that lies gives zero bytes, and every other one what the disk holds.
        ensures lie { OnOk result (IsLying (plan_of self.old) (calls_of self.old + 1)
            → out.new ≡ replicate (length out.old) 0) }
        ensures truth { OnOk result ((IsLying (plan_of self.old) (calls_of self.old + 1) → ⊥)
            → out.new ≡ part (state_of self.old).disk at (length out.old)) }
        ensures leaves { CallLeaves self.old self.new (is_err result) (state_of self.old)
            (state_of self.old) }
    {
        let fails = self.fails();
        let lies = self.lies();
        let noted = self.pass();
        if fails || !noted {
            return Err(self.disk_fault());
        }
        if lies {
            out.fill(0);
        } else {
            let at = at as usize;
            out.copy_from_slice(&self.disk[at..at + out.len()]);
        }
        Ok(())
    }

    fn write(&mut self, at: u64, bytes: &[u8]) -> Result<(), Failed>
        requires { at + length bytes.now ≤ (means self.old).size }
        ensures only { DiskOnly (means self.old) (means self.new) }
        ensures cause { OnErr result (Rose (means self.old).disk_faults
            (means self.new).disk_faults) }
        ensures at_most_once { MakesAtMost 1 (means self.old) (means self.new) }
        ensures once { OnOk result (MakesCalls 1 (means self.old) (means self.new)) }
        ensures written { OnOk result (Wrote at bytes.now (means self.old) (means self.new)) }
        ensures tears { IsTrue (means self.old).honest
            → Tears at (length bytes.now) (means self.old) (means self.new) }

        // Also a write that is made to fail leaves its range pending.
        ensures leaves { CallLeaves self.old self.new (is_err result)
            (after_write (state_of self.old) at bytes.now true)
            (after_write (state_of self.old) at bytes.now false) }
    {
        let done = !self.fails();
        let at = at as usize;
        let Ok(copy) = bytes.to_vec(self.alloc) else {
            return Err(self.disk_fault());
        };
        let call = Call::Write {
            at,
            bytes: copy,
            done,
        };
        if !note(&mut self.calls, call) {
            return Err(self.disk_fault());
        }
        if !done {
            return Err(self.disk_fault());
        }
        write_over(&mut self.disk, at, bytes);
        Ok(())
    }

    fn sync(&mut self) -> Result<(), Failed>
        ensures only { WritesNothing (means self.old) (means self.new) }
        ensures cause { OnErr result (Rose (means self.old).disk_faults
            (means self.new).disk_faults) }
        ensures at_most_once { MakesAtMost 1 (means self.old) (means self.new) }
        ensures once { OnOk result (MakesCalls 1 (means self.old) (means self.new)) }
        ensures settles { OnOk result (Settles (means self.old) (means self.new)) }
        ensures leaves { CallLeaves self.old self.new (is_err result)
            (after_sync (state_of self.old)) (state_of self.old) }
    {
        if self.fails() {
            let _noted = self.pass();
            return Err(self.disk_fault());
        }
        if !note(&mut self.calls, Call::Sync) {
            return Err(self.disk_fault());
        }
        Ok(())
    }
}

impl Source for MemoryHost {
    fn take(&mut self, out: &mut [u8]) -> Result<usize, Failed>
        ensures only { SourceOnly (means self.old) (means self.new) }
        ensures cause { OnErr result (Rose (means self.old).read_faults
            (means self.new).read_faults) }
        ensures at_most_once { MakesAtMost 1 (means self.old) (means self.new) }
        ensures once { OnOk result (MakesCalls 1 (means self.old) (means self.new)) }
        ensures count { IfOk result (λ n. n ≤ length out.old) }
        ensures bytes { IfOk result (λ n. (was : List ℕ) → (means self.old).left ≡ Some was
            → (n ≤ length was) × (take n out.new ≡ take n was)
            × ((means self.new).left ≡ Some (drop n was))) }
        ensures end { IfOk result (λ n. n ≡ 0 → 0 < length out.old → (was : List ℕ)
            → (means self.old).left ≡ Some was → was ≡ []) }
        ensures failed { OnErr result ((means self.new).left ≡ (means self.old).left) }

        // It takes all that is left, that `out` holds and that one call may move.
        ensures all { IfOk result (λ n. n ≡ min (min (length (left_of self.old)) (length out.old))
            (plan_of self.old).piece) }
        ensures leaves { CallLeaves self.old self.new (is_err result) (state_of self.old)
            (state_of self.old) }
    {
        let fails = self.fails();
        let noted = self.pass();
        if fails || !noted {
            return Err(self.read_fault());
        }
        let left = self.script.len() - self.taken;
        let n = left.min(out.len()).min(self.piece as usize);
        let taken = self.taken;
        out[..n].copy_from_slice(&self.script[taken..taken + n]);
        self.taken += n;
        Ok(n)
    }
}

impl Sink for MemoryHost {
    fn put(&mut self, bytes: &[u8]) -> Result<usize, Failed>
        ensures only { SinkOnly (means self.old) (means self.new) }
        ensures cause { OnErr result (Rose (means self.old).write_faults
            (means self.new).write_faults) }
        ensures at_most_once { MakesAtMost 1 (means self.old) (means self.new) }
        ensures once { OnOk result (MakesCalls 1 (means self.old) (means self.new)) }
        ensures count { IfOk result (λ n. n ≤ length bytes.now) }
        ensures some { IfOk result (λ n. 0 < length bytes.now → 0 < n) }
        ensures sent { IfOk result (λ n. (was : List ℕ) → (means self.old).sent ≡ Some was
            → (means self.new).sent ≡ Some (was ++ take n bytes.now)) }
        ensures failed { OnErr result ((means self.new).sent ≡ (means self.old).sent) }
        ensures adds { Adds (means self.old) (means self.new)
            (λ s d. (means self.old).images d × (((means self.old).sent ≡ Some s)
            ⊎ ((means self.new).sent ≡ Some s))) }

        // It sends all that one call may move.
        ensures all { IfOk result (λ n. n ≡ min (length bytes.now) (plan_of self.old).piece) }
        ensures leaves { CallLeaves self.old self.new (is_err result)
            (after_put (state_of self.old) (take (plan_of self.old).piece bytes.now))
            (state_of self.old) }
    {
        if self.fails() {
            let _noted = self.pass();
            return Err(self.write_fault());
        }
        let n = bytes.len().min(self.piece as usize);
        if !send(&mut self.calls, &mut self.sent, self.alloc, &bytes[..n]) {
            return Err(self.write_fault());
        }
        Ok(n)
    }
}

impl Host for MemoryHost {}
