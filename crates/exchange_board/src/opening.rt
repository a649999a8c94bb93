//! Opening a board: all its memory is taken here.

ghost use Rattle.std.specs.Prelude.{◌≡◌, ◌+◌, ◌*◌, ◌/◌, ◌%◌, ◌<◌, ◌≤◌, true, false, length, replicate, IfOk, IsSomeAnd, slice_set};
ghost use Rattle.std.specs.Arc.{arc_value};
ghost use Rattle.spin_model.specs.Limits.{every_take, last_epoch, most_rows};
ghost use Rattle.plane_sweep.specs.Packed.{FitsDuo, StandFits};
ghost use Rattle.plane_sweep.specs.Uneven.{positions_of, level_stand, RaggedStandFits};
ghost use Rattle.scalar_rule.specs.Plan.{slots_of};
ghost use Rattle.scalar_rule.specs.Positions.{deepest_of, floor_of, cell_epoch};
ghost use Rattle.scalar_rule.specs.Records.{recorded_epochs};
ghost use Rattle.exchange_board.specs.Content.{positions_in, floor_in, started, row_place, row_total, no_record, record_at, KeepsRows, IsLawfulOrigin};
ghost use Rattle.exchange_board.specs.Kept.{kept_in, before_in, cells_in, IsFilled};
ghost use Rattle.exchange_board.specs.Opening.{Begins, AreFirst};

use crate::board::{Board, Slot};
use crate::home::Home;
use crate::origin::{Origin, Window};
use crate::room::Room;
use crate::rows::{NO_RECORD, rows_of};
use glass_edges::NoMemory;
use plain_list::Items;
use plane_sweep::{
    Duo, PairWheels, Place, RaggedStand, Replica, Stand, cell_at, deepest, has_record,
};
use pr_generator::Wheel;
use scalar_rule::{Plan, Record, recorded_epochs};
use slot_steps::count_totals;
use std::alloc::{AllocError, Global};
use std::sync::Arc;

// So many records of zeros.
fn no_records(alloc: Global, count: usize) -> Result<Items<Record>, NoMemory>
    ensures { IfOk result (λ rows. rows ≡ replicate count no_record) }
{
    Ok(Items::of(vec![in alloc; NO_RECORD; count]?))
}

// One place of the table: where it has a record that is kept, that record goes to its row.
fn fill_cell(
    records: &mut Items<Record>,
    origin: &Origin,
    floor: u64,
    index: usize,
    next: usize,
) -> usize
    requires lawful { IsLawfulOrigin origin.now }
    requires floor { floor ≡ floor_in origin.now }
    requires index { index < cells_in origin.now }
    requires next { next ≡ before_in origin.now index }
    requires sized { length records.old ≡ row_total origin.now }
    ensures kept { kept_in origin.now index ≡ true → (result ≡ next + 1) × (records.new ≡ slice_set records.old
        (row_place origin.now (cell_epoch floor origin.now.window.samples (length (positions_in origin.now)) index)
        (index / length (positions_in origin.now) % origin.now.window.samples) (index % length (positions_in origin.now)))
        (record_at origin.now.base.pending next)) }
    ensures passed { kept_in origin.now index ≡ false → (result ≡ next) × (records.new ≡ records.old) }
{
    let window = origin.window;
    let cell = cell_at(index, floor, window.samples, origin.plan.slots());
    if has_record(&cell, &origin.base.places, window.every) {
        let rows = rows_of(origin, cell.slot, cell.epoch);
        *records.at_mut(rows.place(cell.sample)) = *origin.base.pending.at(next);
        next + 1
    } else {
        next
    }
}

// The records that are kept from the start go to their rows.
fn fill_records(records: &mut Items<Record>, origin: &Origin, floor: u64)
    requires lawful { IsLawfulOrigin origin.now }
    requires floor { floor ≡ floor_in origin.now }
    requires records { records.old ≡ replicate (row_total origin.now) no_record }
    ensures filled { IsFilled origin.now (cells_in origin.now) records.new }
{
    let ahead = deepest(&origin.base.places) - floor;
    let cells = ahead as usize * origin.window.samples as usize * origin.plan.slots() as usize;
    let mut next = 0usize;
    'cells: for index in 0..cells {
        next = fill_cell(records, origin, floor, index, next);
    }
}

// The rows of a board that begins.
fn opening_records(alloc: Global, origin: &Origin) -> Result<Items<Record>, NoMemory>
    requires { IsLawfulOrigin origin.now }
    ensures sized { IfOk result (λ rows. length rows ≡ row_total origin.now) }
    ensures rows { IfOk result (KeepsRows origin.now (started origin.now)) }
{
    let window = origin.window;
    let floor = origin.base.floor();
    let epochs = recorded_epochs(window.every, floor, window.until);
    let count = epochs as usize * window.samples as usize * origin.plan.slots() as usize;
    let mut rows = no_records(alloc, count)?;
    fill_records(&mut rows, origin, floor);
    Ok(rows)
}

// The content of a slot at the place where it begins.
fn opened_home(share: Arc<Origin, Global>, plan: &Plan, place: Place, duo: Duo) -> Home
    requires plan { plan.now ≡ arc_value (arc_value share).plan }
    requires duo { FitsDuo plan.now.size duo }
    ensures { Begins (arc_value share) place duo result }
{
    let totals = if place.arrived {
        Some(count_totals(&duo, plan))
    } else {
        None
    };
    Home {
        share,
        duo,
        totals,
        page: [NO_RECORD; 64],
        wheels: no_wheels(),
    }
}

// Generators of zeros.
fn no_wheels() -> PairWheels {
    PairWheels {
        first: Wheel::from_words(&[0; 61]),
        second: Wheel::from_words(&[0; 61]),
    }
}

// A slot without planes.
fn no_duo(alloc: Global) -> Duo {
    Duo {
        first: no_replica(alloc),
        second: no_replica(alloc),
    }
}

fn no_replica(alloc: Global) -> Replica {
    Replica {
        planes: Items::of(Vec::new(alloc)),
        labels: [0; 64],
    }
}

// So many slots without planes.
fn no_duos(alloc: Global, count: usize) -> Result<Items<Duo>, NoMemory>
    ensures { IfOk result (λ duos. length duos ≡ count) }
{
    let mut duos = Vec::with_capacity(alloc, count)?;
    'duos: for t in 0..count {
        duos.push(no_duo(alloc))?;
    }
    Ok(Items::of(duos))
}

// The slots at the places where they begin; their contents are moved.
fn opening_slots(
    alloc: Global,
    origin: &Arc<Origin, Global>,
    contents: Items<Duo>,
) -> Result<Items<Slot>, NoMemory>
    requires lawful { IsLawfulOrigin (arc_value origin.now) }
    requires contents { contents ≡ (arc_value origin.now).base.slots }
    ensures { IfOk result (AreFirst (arc_value origin.now)) }
{
    let mut contents = contents;
    let mut slots = Vec::with_capacity(alloc, contents.len())?;
    'slots: for t in 0..contents.len() {
        let share = Arc::try_clone(origin)?;
        let duo = std::mem::replace(contents.at_mut(t), no_duo(alloc));
        let place = *origin.base.places.at(t);
        let content = opened_home(share, &origin.plan, place, duo);
        let home = Box::new(alloc, content).map_err(AllocError::from)?;
        slots.push(Slot {
            epoch: place.epoch,
            home: Some(home),
        })?;
    }
    Ok(Items::of(slots))
}

impl Board {
    ghost use Rattle.exchange_board.specs.Answers.{Opened};

    /// A board at the places of a state whose slots may stand at different epochs. All memory that the
    /// board needs is taken here.
    ///
    /// # Errors
    ///
    /// Refuses only for lack of memory; the state is then dropped.
    pub fn open_ragged(
        alloc: Global,
        plan: &Arc<Plan, Global>,
        base: RaggedStand,
        window: Window,
    ) -> Result<Board, NoMemory>
        requires base { RaggedStandFits (arc_value plan.now) window.samples window.every base }
        requires until { window.until ≤ last_epoch }
        requires every { window.every ≤ last_epoch }
        requires takes { window.takes ≤ every_take }
        requires reach { deepest_of (positions_of base) ≤ window.until }
        requires rows { recorded_epochs window.every (floor_of (positions_of base)) window.until * window.samples
            * slots_of (arc_value plan.now) ≤ most_rows }
        ensures { IfOk result (Opened (arc_value plan.now) base window) }
    {
        let slots = plan.slots() as usize;
        let RaggedStand {
            places,
            slots: contents,
            pairs,
            pending: _,
        } = base.copy(alloc)?;
        let share = Arc::try_clone(plan)?;
        let origin = Arc::new(
            alloc,
            Origin {
                plan: share,
                base,
                window,
            },
        )?;
        let records = opening_records(alloc, &origin)?;
        let duos = no_duos(alloc, slots)?;
        let pending = Room::reserve(alloc, window.samples as usize * slots * slots)?;
        let slots = opening_slots(alloc, &origin, contents)?;
        Ok(Board {
            origin,
            slots,
            pairs,
            records,
            left: window.takes,
            duos,
            pending,
            places,
        })
    }

    /// A board at a state whose slots are all at rest at one epoch.
    ///
    /// # Errors
    ///
    /// Refuses only for lack of memory; the state is then dropped.
    pub fn open(
        alloc: Global,
        plan: &Arc<Plan, Global>,
        stand: Stand,
        window: Window,
    ) -> Result<Board, NoMemory>
        requires stand { StandFits (arc_value plan.now) stand }
        requires epoch { stand.epoch ≤ window.until }
        requires until { window.until ≤ last_epoch }
        requires some_every { 1 ≤ window.every }
        requires every { window.every ≤ last_epoch }
        requires some_samples { 1 ≤ window.samples }
        requires samples { window.samples ≤ 64 }
        requires takes { window.takes ≤ every_take }
        requires rows { recorded_epochs window.every stand.epoch window.until * window.samples
            * slots_of (arc_value plan.now) ≤ most_rows }
        ensures { IfOk result (Opened (arc_value plan.now) (level_stand stand) window) }
    {
        let _ = plan.slots();
        let base = RaggedStand::level(alloc, stand)?;
        Board::open_ragged(alloc, plan, base, window)
    }
}
