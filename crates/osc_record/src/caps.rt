//! The limits of a server's tables and of its recording.
ghost use Rattle.std.specs.Prelude.{◌≡◌, ◌↔◌, IsOk, IfOk, IfErr, Some, None};
ghost use Rattle.osc_model.specs.Limits.{limits_of, AreInRange, is_within, limit_fault};

use crate::limits::{HEADER_SIZE, MAX_CALLERS, MAX_METHODS, MAX_RECORDING, MAX_RESERVED};
use osc_model::{Late, Limits};
use std::marker::Model;
use thiserror::Error;

/// A limit is outside its range.
#[derive(Clone, Copy, Debug, PartialEq, Eq, Error)]
#[error("limit {field} is outside its range")]
pub struct CapFault {
    /// The first such limit, counted from 1.
    pub field: u8,
}

/// Limits that are each in its range.
#[derive(Clone, Copy, Debug, PartialEq, Eq)]
pub struct Caps {
    limits: Limits,
}

impl Model for Caps {
    ghost use Rattle.osc_model.specs.Limits.{Limits, AreInRange};

    ghost Value = { Limits };

    ghost view = { λ c. c.limits };

    ghost invariant = { λ c. AreInRange c.limits };

    ghost inverse = { λ l. record { limits = l } };
}

impl Caps {
    ghost use Rattle.osc_model.specs.Limits.{header_size, max_recording};
    ghost use Rattle.std.specs.Prelude.{◌≤◌};

    /// The limits, or the first of them that is outside its range: units, blocks and nodes from 1
    /// to `MAX_RESERVED`, methods to `MAX_METHODS`, callers to `MAX_CALLERS`, and recording from
    /// `HEADER_SIZE` to `MAX_RECORDING`.
    pub fn new(
        units: u32,
        blocks: u32,
        methods: u32,
        nodes: u32,
        callers: u32,
        recording: u32,
        late: Late,
    ) -> Result<Caps, CapFault>
        ensures ok { IfOk result
            (λ caps. caps ≡ limits_of units blocks methods nodes callers recording late) }
        ensures exact { IsOk result
            ↔ AreInRange (limits_of units blocks methods nodes callers recording late) }
        ensures read { IsOk result
            ↔ (limit_fault (limits_of units blocks methods nodes callers recording late) ≡ None) }
        ensures fault { IfErr result
            (λ fault. limit_fault (limits_of units blocks methods nodes callers recording late)
            ≡ Some fault.field) }
    {
        Caps::of(Limits {
            units,
            blocks,
            methods,
            nodes,
            callers,
            recording,
            late,
        })
    }

    /// The same, of limits in one value.
    pub fn of(limits: Limits) -> Result<Caps, CapFault>
        ensures ok { IfOk result (λ caps. caps ≡ limits) }
        ensures exact { IsOk result ↔ AreInRange limits }
        ensures read { IsOk result ↔ (limit_fault limits ≡ None) }
        ensures fault { IfErr result (λ fault. limit_fault limits ≡ Some fault.field) }
    {
        if !lies_within(1, MAX_RESERVED, limits.units) {
            return Err(CapFault { field: 1 });
        }
        if !lies_within(1, MAX_RESERVED, limits.blocks) {
            return Err(CapFault { field: 2 });
        }
        if !lies_within(1, MAX_METHODS, limits.methods) {
            return Err(CapFault { field: 3 });
        }
        if !lies_within(1, MAX_RESERVED, limits.nodes) {
            return Err(CapFault { field: 4 });
        }
        if !lies_within(1, MAX_CALLERS, limits.callers) {
            return Err(CapFault { field: 5 });
        }
        if !lies_within(HEADER_SIZE, MAX_RECORDING, limits.recording) {
            return Err(CapFault { field: 6 });
        }
        Ok(Caps { limits })
    }

    /// The same limits, but for so many bytes of recording, from `HEADER_SIZE` to `MAX_RECORDING`.
    pub fn with_recording(self, recording: u32) -> Caps
        requires least { header_size ≤ recording }
        requires most { recording ≤ max_recording }
        ensures { result ≡ record self { recording = recording } }
    {
        Caps {
            limits: Limits {
                recording,
                ..self.limits
            },
        }
    }

    /// All of them.
    pub fn limits(&self) -> Limits
        ensures value { result ≡ self.now }
        ensures range { AreInRange self.now }
    {
        self.limits
    }

    /// How many units may be queued.
    pub fn units(&self) -> u32
        ensures value { result ≡ self.now.units }
        ensures range { AreInRange self.now }
    {
        self.limits.units
    }

    /// How many blocks of 64 bytes there are for their messages.
    pub fn blocks(&self) -> u32
        ensures value { result ≡ self.now.blocks }
        ensures range { AreInRange self.now }
    {
        self.limits.blocks
    }

    /// How many methods there may be.
    pub fn methods(&self) -> u32
        ensures value { result ≡ self.now.methods }
        ensures range { AreInRange self.now }
    {
        self.limits.methods
    }

    /// How many nodes the methods' addresses may have.
    pub fn nodes(&self) -> u32
        ensures value { result ≡ self.now.nodes }
        ensures range { AreInRange self.now }
    {
        self.limits.nodes
    }

    /// How many callers there may be, the first among them.
    pub fn callers(&self) -> u32
        ensures value { result ≡ self.now.callers }
        ensures range { AreInRange self.now }
    {
        self.limits.callers
    }

    /// How many bytes the recording may have, its header among them.
    pub fn recording(&self) -> u32
        ensures value { result ≡ self.now.recording }
        ensures range { AreInRange self.now }
    {
        self.limits.recording
    }

    /// What becomes of late units.
    pub fn late(&self) -> Late
        ensures value { result ≡ self.now.late }
        ensures range { AreInRange self.now }
    {
        self.limits.late
    }
}

fn lies_within(least: u32, most: u32, number: u32) -> bool
    ensures { result ≡ is_within least most number }
{
    least <= number && number <= most
}
