// What is gathered of the entries of a recording.
ghost use Rattle.std.specs.Prelude.{◌≡◌, ◌==◌, ◌++◌, OnOk, IfOk};
ghost use Rattle.std.specs.List.{flat_map};
ghost use Rattle.osc_drawing.specs.Marks as marks;
ghost use Rattle.osc_story.specs.Standings.{first_messages};
ghost use Rattle.osc_drawing.specs.Gatherings.{released_marks};

use crate::arrival::{Arrival, arrival_of, take_off};
use crate::carried::carried_of;
use crate::ending::{add_standing, add_waiting};
use crate::mark::{Draft, Form, Mark, Owner, Stamp, mark_of};
use crate::target::{add_handed, add_pattern};
use osc_model::keeps;
use osc_packet::{MAX_PACKET, Packet, Unit, Units};
use osc_record::{Answer, Event};
use osc_story::{Call, Calls, KeptMessage, Registered, Story};
use std::alloc::{AllocError, Global};
use std::marker::Model;

/// The marks so far, when came what waits and the methods that are there, and how many units were
/// called, discarded or refused.
pub(crate) struct Gathering {
    alloc: Global,
    marks: Vec<Mark>,
    units: Vec<Arrival>,
    methods: Vec<Arrival>,
    count: u64,
}

impl Drop for Gathering {
    fn drop(self) {
        let Gathering {
            alloc: _,
            marks: _,
            units: _,
            methods: _,
            count: _,
        } = self;
    }
}

impl Model for Gathering {
    ghost use Rattle.osc_drawing.specs.Gatherings.{Gathered};

    ghost Value = { Gathered };

    ghost view = { λ g. record {
      marks = g.marks.items;
      units = g.units.items;
      methods = g.methods.items;
      count = g.count;
    } };
}

impl Gathering {
    ghost use Rattle.std.specs.Prelude.{◌≡◌, OnOk};
    ghost use Rattle.osc_packet.specs.Reading.{units_read};
    ghost use Rattle.osc_record.specs.Shown.{event_of, answer_of};
    ghost use Rattle.osc_drawing.specs.Endings.{with_end};
    ghost use Rattle.osc_drawing.specs.Gatherings as spec;

    /// Nothing is gathered yet. Takes no memory.
    pub(crate) fn new(alloc: Global) -> Gathering
        ensures { result ≡ spec.nothing_gathered }
    {
        Gathering {
            alloc,
            marks: Vec::new(alloc),
            units: Vec::new(alloc),
            methods: Vec::new(alloc),
            count: 0,
        }
    }

    pub(crate) fn marks(&self) -> &[Mark]
        ensures { result.now ≡ self.now.marks }
    {
        &self.marks
    }

    pub(crate) fn count(&self) -> u64
        ensures { result ≡ self.now.count }
    {
        self.count
    }

    pub(crate) fn alloc(&self) -> Global {
        self.alloc
    }

    /// Nothing waits, and no method is there.
    pub(crate) fn reopen(&mut self)
        ensures { self.new ≡ spec.reopened self.old }
    {
        self.units.clear();
        self.methods.clear();
    }

    /// What is before the next call in order.
    fn stamp(&self, moment: u64) -> Stamp
        ensures { result ≡ spec.stamp_of self.now moment }
    {
        Stamp {
            moment,
            order: self.count.saturating_sub(1),
        }
    }

    /// The next call in order.
    fn next_stamp(&self, moment: u64) -> Stamp
        ensures { result ≡ spec.next_stamp self.now moment }
    {
        Stamp {
            moment,
            order: self.count,
        }
    }

    /// Gathers an event and its answer at a moment, before they are seen. An `Err` means out of
    /// memory, and then nothing more is to be gathered.
    pub(crate) fn gather(
        &mut self,
        story: &Story,
        moment: u64,
        event: Event<'_>,
        answer: Answer<'_>,
    ) -> Result<(), AllocError>
        ensures { OnOk result (self.new ≡ spec.with_event story.now moment (event_of event.entry)
            (answer_of answer.entry) self.old) }
    {
        match event {
            Event::Enrol | Event::Tick(_) => Ok(()),
            Event::Submit(packet) => self.submit(story, moment, packet, answer),
            Event::Add(_) => self.add(moment, answer),
            Event::Remove(address) => self.remove(moment, address, answer),
            Event::Release => self.release(story, moment, answer),
        }
    }

    /// Gathers what waits, and which methods are there, after all entries.
    pub(crate) fn finish(&mut self, story: &Story, end: Stamp) -> Result<(), AllocError>
        ensures { OnOk result (self.new ≡ with_end end story.now self.old) }
    {
        add_waiting(
            &mut self.marks,
            end,
            &self.units,
            story.methods(),
            story.waiting(),
        )?;
        add_standing(&mut self.marks, end, &self.methods, story.methods())
    }

    fn submit(
        &mut self,
        story: &Story,
        moment: u64,
        packet: &[u8],
        answer: Answer<'_>,
    ) -> Result<(), AllocError>
        ensures { OnOk result (self.new ≡ spec.with_packet story.now moment packet.now
            (answer_of answer.entry) self.old) }
    {
        match Packet::check(packet, MAX_PACKET) {
            Ok(packet) => self.take(story, moment, packet.units(), answer),
            Err(_) => Ok(()),
        }
    }

    /// The units of a packet that is answered so.
    fn take(
        &mut self,
        story: &Story,
        moment: u64,
        units: Units<'_>,
        answer: Answer<'_>,
    ) -> Result<(), AllocError>
        ensures { OnOk result (self.new ≡ spec.with_units story.now moment units.entry
            (answer_of answer.entry) self.old) }
    {
        match answer {
            Answer::Queued { first, .. } => self.queue(story, moment, first, units),
            Answer::UnitsFull(_) | Answer::PoolFull(_) => self.refuse(story, moment, units),
            _ => Ok(()),
        }
    }

    fn queue(
        &mut self,
        story: &Story,
        moment: u64,
        first: u64,
        units: Units<'_>,
    ) -> Result<(), AllocError>
        ensures { OnOk result
            (self.new ≡ spec.all_queued story.now moment first units.entry self.old) }
    {
        let mut number = first;
        for unit in units {
            self.queue_unit(story, moment, number, &unit)?;
            number = number.saturating_add(1);
        }
        Ok(())
    }

    /// A unit is discarded, or it waits, where its tag is above the moment.
    fn queue_unit(
        &mut self,
        story: &Story,
        moment: u64,
        number: u64,
        unit: &Unit<'_>,
    ) -> Result<(), AllocError>
        ensures { OnOk result
            (self.new ≡ spec.with_queued story.now moment number unit.now self.old) }
    {
        if !keeps(story.late(), story.clock(), unit) {
            return self.cross(moment, story.methods(), unit);
        }
        if moment < unit.tag() {
            return self.await_unit(number, moment);
        }
        Ok(())
    }

    fn refuse(&mut self, story: &Story, moment: u64, units: Units<'_>) -> Result<(), AllocError>
        ensures { OnOk result
            (self.new ≡ spec.all_refused story.now moment units.entry self.old) }
    {
        for unit in units {
            self.cross(moment, story.methods(), &unit)?;
        }
        Ok(())
    }

    /// A unit is discarded or refused.
    fn cross(
        &mut self,
        moment: u64,
        methods: &[Registered],
        unit: &Unit<'_>,
    ) -> Result<(), AllocError>
        ensures { OnOk result
            (self.new ≡ spec.with_crosses self.old moment methods.now unit.now.messages) }
    {
        let draft = Draft {
            form: Form::Crossed,
            came: None,
            at: self.next_stamp(moment),
        };
        add_handed(&mut self.marks, draft, methods, unit.messages())?;
        self.count = self.count.saturating_add(1);
        Ok(())
    }

    /// A unit waits from now on.
    fn await_unit(&mut self, number: u64, moment: u64) -> Result<(), AllocError>
        ensures { OnOk result (self.new ≡ spec.with_arrival self.old number moment) }
    {
        let at = self.stamp(moment);
        self.units.push(Arrival { number, at })?;
        Ok(())
    }

    /// A method is there from now on.
    fn add(&mut self, moment: u64, answer: Answer<'_>) -> Result<(), AllocError>
        ensures { OnOk result
            (self.new ≡ spec.with_method moment (answer_of answer.entry) self.old) }
    {
        let Answer::Added(id) = answer else {
            return Ok(());
        };
        let at = self.stamp(moment);
        self.methods.push(Arrival {
            number: u64::from(id),
            at,
        })?;
        Ok(())
    }

    /// A method was there up to now.
    fn remove(&mut self, moment: u64, address: &[u8], answer: Answer<'_>) -> Result<(), AllocError>
        ensures { OnOk result (self.new
            ≡ spec.without_method moment address.now (answer_of answer.entry) self.old) }
    {
        let Answer::Removed(id) = answer else {
            return Ok(());
        };
        let draft = Draft {
            form: Form::Removed,
            came: arrival_of(u64::from(id), &self.methods),
            at: self.stamp(moment),
        };
        let mark = mark_of(self.alloc, draft, Owner::Method, address)?;
        self.marks.push(mark)?;
        take_off(&mut self.methods, u64::from(id));
        Ok(())
    }

    fn release(&mut self, story: &Story, moment: u64, answer: Answer<'_>) -> Result<(), AllocError>
        ensures { OnOk result (self.new
            ≡ spec.with_release story.now moment (answer_of answer.entry) self.old) }
    {
        let Answer::Released { unit, .. } = answer else {
            return Ok(());
        };
        let calls = collected(self.alloc(), story.calls(answer))?;
        self.perform(moment, unit, &calls, first_messages(story))
    }

    /// A unit is released, and waits no longer.
    fn perform(
        &mut self,
        moment: u64,
        unit: u64,
        calls: &[Call<'_>],
        messages: &[KeptMessage],
    ) -> Result<(), AllocError>
        ensures { OnOk result
            (self.new ≡ spec.with_calls moment unit calls.now messages.now self.old) }
    {
        let came = arrival_of(unit, &self.units);
        let at = self.next_stamp(moment);
        add_released(&mut self.marks, (came, at), calls, messages)?;
        self.count = self.count.saturating_add(1);
        take_off(&mut self.units, unit);
        Ok(())
    }
}

/// All that are left.
fn collected<'a>(alloc: Global, left: Calls<'a>) -> Result<Vec<Call<'a>>, AllocError>
    ensures { IfOk result (λ calls. calls.items ≡ left.entry) }
{
    let mut calls = Vec::new(alloc);
    for call in left {
        calls.push(call)?;
    }
    Ok(calls)
}

/// The messages of the first unit that waits.
fn first_messages(story: &Story) -> &[KeptMessage]
    ensures { result.now ≡ first_messages story.now.waiting }
{
    match story.waiting().first() {
        Some(first) => first.messages(),
        None => &[],
    }
}

/// Adds the calls of a unit that came and was released then, and its messages that called nothing.
fn add_released(
    out: &mut Vec<Mark>,
    when: (Option<Stamp>, Stamp),
    calls: &[Call<'_>],
    messages: &[KeptMessage],
) -> Result<(), AllocError>
    ensures { OnOk result (out.new.items
        ≡ out.old.items ++ released_marks when.0 when.1 calls.now messages.now) }
{
    let called = Draft {
        form: Form::Called,
        came: when.0,
        at: when.1,
    };
    let unheard = Draft {
        form: Form::Unheard,
        came: when.0,
        at: when.1,
    };
    add_calls(out, called, calls)?;
    add_unheard(out, unheard, calls, messages)
}

fn add_calls(out: &mut Vec<Mark>, draft: Draft, calls: &[Call<'_>]) -> Result<(), AllocError>
    ensures { OnOk result (out.new.items
        ≡ out.old.items ++ flat_map (marks.call_marks draft) calls.now) }
{
    for call in calls {
        add_call(out, draft, call)?;
    }
    Ok(())
}

fn add_call(out: &mut Vec<Mark>, draft: Draft, call: &Call<'_>) -> Result<(), AllocError>
    ensures { OnOk result (out.new.items ≡ out.old.items ++ marks.call_marks draft call.now) }
{
    let mark = call_mark(*out.allocator(), draft, call)?;
    out.push(mark)?;
    Ok(())
}

fn call_mark(alloc: Global, draft: Draft, call: &Call<'_>) -> Result<Mark, AllocError>
    ensures { IfOk result (λ mark. mark ≡ marks.call_mark draft call.now) }
{
    let carried = carried_of(alloc, call.message())?;
    let mark = mark_of(alloc, draft, Owner::Method, call.address())?;
    Ok(Mark { carried, ..mark })
}

fn add_unheard(
    out: &mut Vec<Mark>,
    draft: Draft,
    calls: &[Call<'_>],
    messages: &[KeptMessage],
) -> Result<(), AllocError>
    ensures { OnOk result (out.new.items
        ≡ out.old.items ++ marks.unheard_marks draft calls.now 0 messages.now) }
{
    let mut index = 0;
    let mut rest = messages;
    while let Some((message, others)) = rest.split_first() {
        add_unless_heard(out, draft, calls, index, message)?;
        index += 1;
        rest = others;
    }
    Ok(())
}

/// Adds a mark at the pattern of the message at an index, if it isn't called.
fn add_unless_heard(
    out: &mut Vec<Mark>,
    draft: Draft,
    calls: &[Call<'_>],
    index: usize,
    message: &KeptMessage,
) -> Result<(), AllocError>
    ensures { OnOk result (out.new.items
        ≡ out.old.items ++ marks.unheard_mark draft calls.now index message.now) }
{
    if is_heard(calls, index) {
        return Ok(());
    }
    add_pattern(out, draft, &message.message())
}

fn is_heard(calls: &[Call<'_>], index: usize) -> bool
    ensures { result ≡ marks.is_heard calls.now index }
{
    calls.iter().any(|call| is_at(call, index))
}

fn is_at(call: &Call<'_>, index: usize) -> bool
    ensures { result ≡ (call.now.index == index) }
{
    call.index() as usize == index
}
