// What a history comes to, and one entry more after it.

ghost use Rattle.std.specs.Prelude.{◌≡◌, ◌<◌, ◌^◌, ◌-◌, ◌+◌, ◌++◌, ◌∷◌, [], false, None, reverse, length, sum_by, IfOk, OnOk, option_map, option_and_then};
ghost use Rattle.da_base.specs.Words.{nth};
ghost use Rattle.da_entry.specs.Bridges.{IsReplayed, PassesTo};
ghost use Rattle.da_play.specs.Effects.{effects};
ghost use Rattle.da_play.specs.History.{before_input as spec_before_input, after_input, after};
ghost use Rattle.da_play.specs.Legal.{entry_moment, input_size, is_full};
ghost use Rattle.da_play.specs.Play.{hits_for, outputs_with, refusal, next_entry, outputs as outputs_of_entry};
ghost use Rattle.da_tables.specs.Queries.{query_with as words_query_with};

use crate::effects::{apply_entry, due_lines, own_lines};
use crate::history::{apply_input, before_input};
use crate::refusals::input_refusal;
use crate::sizes::{left_after_input, left_after_lines};
use da_answers::{database_count, hits_from};
use da_fields::{Query, Text};
use da_play::{Effects, Entry, Input, Outputs, Refused, Sent};
use da_settings::Settings;
use da_tables::{Numbers, Tables, query_with};
use std::alloc::{AllocError, Global};

/// The bytes that an entry counts beside its texts and lines.
const ENTRY_SIZE: u64 = 64;

/// What a history comes to when it is replayed.
#[derive(Drop)]
pub struct Replayed {
    /// The tables at its end.
    pub tables: Tables,
    /// How many bytes it may still grow by.
    pub bytes_left: u64,
}

/// An entry, what it gives out, and what the history comes to with it.
#[derive(Drop)]
pub struct Entered {
    pub entry: Entry,
    pub outputs: Outputs,
    pub replayed: Replayed,
}

/// The hits of the request that an input moves, after these tables.
fn hits_of(
    alloc: Global,
    settings: &Settings,
    tables: &Tables,
    moment: u64,
    input: &Input,
) -> Result<Vec<u32>, AllocError>
    requires requests { length tables.now.requests < 2 ^ 32 - 1 }
    requires connections { length tables.now.connections < 2 ^ 32 - 1 }
    requires queries { length tables.now.queries < 2 ^ 32 - 1 }
    ensures { IfOk result (λ hits. hits.items ≡ hits_for settings.now moment tables.now (after_input settings.now moment input.now (spec_before_input settings.now moment input.now tables.now))) }
{
    if tables.keys.all().is_empty() {
        return Ok(Vec::new(alloc));
    }
    let mut ahead = tables.copy(alloc)?;
    hits_ahead(&mut ahead, alloc, settings, tables, moment, input)
}

/// The hits after these tables of the request that an input moves, where `ahead` goes on by that input first.
fn hits_ahead(
    ahead: &mut Tables,
    alloc: Global,
    settings: &Settings,
    tables: &Tables,
    moment: u64,
    input: &Input,
) -> Result<Vec<u32>, AllocError>
    requires requests { length ahead.old.requests < 2 ^ 32 - 1 }
    requires connections { length ahead.old.connections < 2 ^ 32 - 1 }
    requires queries { length ahead.old.queries < 2 ^ 32 - 1 }
    ensures { IfOk result (λ hits. hits.items ≡ hits_for settings.now moment tables.now (after_input settings.now moment input.now (spec_before_input settings.now moment input.now ahead.old))) }
{
    before_input(ahead, alloc, settings, moment, input)?;
    let effect = apply_input(ahead, alloc, settings, moment, input)?;
    let Some(number) = effect.continued else {
        return Ok(Vec::new(alloc));
    };
    match ahead.request(number) {
        Some(request) => hits_from(
            alloc,
            settings,
            moment,
            tables,
            database_count(settings),
            request,
        ),
        None => Ok(Vec::new(alloc)),
    }
}

fn query_of(
    alloc: Global,
    tables: &Tables,
    handed_out: Option<u32>,
) -> Result<Option<Query>, AllocError>
    ensures { IfOk result (λ query. query ≡ option_and_then (λ n. option_map (words_query_with n) (nth tables.now.queries n)) handed_out) }
{
    let Some(number) = handed_out else {
        return Ok(None);
    };
    match tables.query(number) {
        Some(query_row) => Ok(Some(query_with(alloc, number, query_row)?)),
        None => Ok(None),
    }
}

fn outputs_of(
    alloc: Global,
    settings: &Settings,
    number: u64,
    hits: &Numbers,
    tables: &Tables,
    effects: &Effects,
) -> Result<Outputs, AllocError>
    ensures { IfOk result (λ out. out ≡ outputs_with settings.now number hits.now tables.now effects.now) }
{
    Ok(Outputs {
        entry: number,
        conn: effects.opened,
        query: query_of(alloc, tables, effects.handed_out)?,
        hits: hits.copy(alloc)?,
        due_lines: Sent::new(due_lines(alloc, settings, tables, effects)?),
        lines: Sent::new(own_lines(alloc, settings, tables, effects)?),
        closed: effects.closed,
    })
}

/// How many bytes are left after an entry that sends these lines.
fn left_after(left: u64, input: &Input, due: &[(u32, Text)], own: &[(u32, Text)]) -> u64
    ensures { result ≡ left - (64 + input_size input.now + sum_by (λ l. length l.1) (due.now ++ own.now)) }
{
    let rest = left_after_input(left.saturating_sub(ENTRY_SIZE), input);
    left_after_lines(left_after_lines(rest, due), own)
}

/// Goes on by the entry of this number, and gives out what comes of it.
fn give_out(
    replayed: &mut Replayed,
    alloc: Global,
    settings: &Settings,
    number: u64,
    entry: &Entry,
) -> Result<Outputs, AllocError>
    requires requests { length replayed.old.tables.requests < 2 ^ 32 - 1 }
    requires connections { length replayed.old.tables.connections < 2 ^ 32 - 1 }
    requires queries { length replayed.old.tables.queries < 2 ^ 32 - 1 }
    ensures outputs { IfOk result (λ out. out ≡ outputs_with settings.now number entry.now.hits (after settings.now replayed.old.tables entry.now) (effects settings.now replayed.old.tables entry.now)) }
    ensures passes { OnOk result (PassesTo settings.now entry.now replayed.old replayed.new) }
{
    let effects = apply_entry(&mut replayed.tables, alloc, settings, entry)?;
    let outputs = outputs_of(
        alloc,
        settings,
        number,
        &entry.hits,
        &replayed.tables,
        &effects,
    )?;
    replayed.bytes_left = left_after(
        replayed.bytes_left,
        &entry.input,
        outputs.due_lines.all(),
        outputs.lines.all(),
    );
    Ok(outputs)
}

/// The entry of this number that an input makes after these tables, and all that comes of it.
fn enter(
    alloc: Global,
    settings: &Settings,
    replayed: Replayed,
    number: u64,
    moment: u64,
    input: Input,
) -> Result<Entered, AllocError>
    requires requests { length replayed.tables.requests < 2 ^ 32 - 1 }
    requires connections { length replayed.tables.connections < 2 ^ 32 - 1 }
    requires queries { length replayed.tables.queries < 2 ^ 32 - 1 }
    ensures entry { IfOk result (λ entered. entered.entry ≡ record { moment = moment; input = input; hits = hits_for settings.now moment replayed.tables (after_input settings.now moment input (spec_before_input settings.now moment input replayed.tables)) }) }
    ensures outputs { IfOk result (λ entered. entered.outputs ≡ outputs_with settings.now number entered.entry.hits (after settings.now replayed.tables entered.entry) (effects settings.now replayed.tables entered.entry)) }
    ensures passes { IfOk result (λ entered. PassesTo settings.now entered.entry replayed entered.replayed) }
{
    let hits = Numbers::new(hits_of(alloc, settings, &replayed.tables, moment, &input)?);
    let entry = Entry {
        moment,
        input,
        hits,
    };
    let mut replayed = replayed;
    let outputs = give_out(&mut replayed, alloc, settings, number, &entry)?;
    Ok(Entered {
        entry,
        outputs,
        replayed,
    })
}

/// The moment of an entry after these that is handed in at a moment.
pub fn entry_moment(entries: &[Entry], moment: u64) -> u64
    ensures { result ≡ entry_moment (reverse entries.now) moment }
{
    match entries {
        [] => moment,
        [.., last] => moment.max(last.moment),
    }
}

impl Replayed {
    /// What no entries come to. It takes no memory.
    pub fn new(alloc: Global, settings: &Settings) -> Replayed
        ensures { IsReplayed settings.now [] result }
    {
        Replayed {
            tables: Tables::new(alloc),
            bytes_left: settings.history_bytes,
        }
    }

    /// Goes one entry further.
    pub fn pass(
        &mut self,
        alloc: Global,
        settings: &Settings,
        entry: &Entry,
    ) -> Result<(), AllocError>
        requires requests { length self.old.tables.requests < 2 ^ 32 - 1 }
        requires connections { length self.old.tables.connections < 2 ^ 32 - 1 }
        requires queries { length self.old.tables.queries < 2 ^ 32 - 1 }
        ensures { OnOk result (PassesTo settings.now entry.now self.old self.new) }
    {
        let effects = apply_entry(&mut self.tables, alloc, settings, entry)?;
        let due = due_lines(alloc, settings, &self.tables, &effects)?;
        let own = own_lines(alloc, settings, &self.tables, &effects)?;
        self.bytes_left = left_after(self.bytes_left, &entry.input, &due, &own);
        Ok(())
    }

    /// Whether the history of these entries, which comes to this, has as many entries or bytes as it may have. Where it
    /// hasn't, there are few entries.
    pub fn is_full(&self, settings: &Settings, entries: &[Entry]) -> bool
        requires { IsReplayed settings.now (reverse entries.now) self.now }
        ensures full { result ≡ is_full settings.now (reverse entries.now) }
        ensures few { result ≡ false → length entries.now < 2 ^ 32 - 2 }
    {
        settings.history_entries <= entries.len() as u64 || self.bytes_left == 0
    }

    /// Why an input makes no entry after these entries, whose history comes to this. `None` where it makes one, and then
    /// there are few entries.
    #[tactic(auto, unfolding(da_play::specs::Play::refusal))]
    pub fn refusal(
        &self,
        settings: &Settings,
        entries: &[Entry],
        moment: u64,
        input: &Input,
    ) -> Option<Refused>
        requires { IsReplayed settings.now (reverse entries.now) self.now }
        ensures refusal { result ≡ refusal settings.now (reverse entries.now) (entry_moment (reverse entries.now) moment) input.now }
        ensures few { result ≡ None → length entries.now < 2 ^ 32 - 2 }
    {
        if self.is_full(settings, entries) {
            return Some(Refused::HistoryFull);
        }
        input_refusal(settings, &self.tables, entry_moment(entries, moment), input)
    }

    /// The entry that an input makes after these entries, whose history comes to this, and all that comes of it.
    #[tactic(auto, unfolding(da_play::specs::Play::next_entry, da_play::specs::Play::outputs, da_play::specs::Play::hits))]
    pub fn enter(
        self,
        alloc: Global,
        settings: &Settings,
        entries: &[Entry],
        moment: u64,
        input: Input,
    ) -> Result<Entered, AllocError>
        requires replayed { IsReplayed settings.now (reverse entries.now) self }
        requires few { length entries.now < 2 ^ 32 - 2 }
        ensures entry { IfOk result (λ entered. entered.entry ≡ next_entry settings.now (reverse entries.now) moment input) }
        ensures outputs { IfOk result (λ entered. entered.outputs ≡ outputs_of_entry settings.now (reverse entries.now) entered.entry) }
        ensures replayed { IfOk result (λ entered. IsReplayed settings.now (entered.entry ∷ reverse entries.now) entered.replayed) }
    {
        let moment = entry_moment(entries, moment);
        let number = entries.len() as u64 + 1;
        enter(alloc, settings, self, number, moment, input)
    }

    /// An equal value.
    pub fn copy(&self, alloc: Global) -> Result<Replayed, AllocError>
        ensures { IfOk result (λ copy. copy ≡ self.now) }
    {
        Ok(Replayed {
            tables: self.tables.copy(alloc)?,
            bytes_left: self.bytes_left,
        })
    }
}
