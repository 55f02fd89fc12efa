//! Bodies, executed statement by statement. A constructor that is called is executed in place on its fresh object.
ghost use Rattle.std.specs.Prelude.{◌≡◌, ◌+◌, ◌-◌, ◌^◌, ◌<◌, ◌≤◌, [], ◌∷◌, ◌++◌, length, map, slice_set, vec_len, vec_capacity, IfSome};
ghost use Rattle.easl_model.specs.{ActHasFewArguments, ActInRange, ActsInRange, HasFewArguments, IsChecked, SourceInRange, statement_of, statements_of};
ghost use Rattle.easl_model.specs.{written_by};
ghost use Rattle.easl_heap.specs.{Comes, Fits, Gives, Grows, HasArguments, HasRoom, fresh, made, moment, outcome};
ghost use Rattle.easl_heap.specs.Heap as heap;
ghost use Rattle.easl_heap.specs.Body as told;
ghost use Rattle.arrayvec.specs.ArrayVec.{array_vec_len};

use crate::clause::holds;
use crate::object::Object;
use crate::paths::{Slots, reached};
use arrayvec::ArrayVec;
use easl_model::{Act, CheckedSpec, Reach, Source};

/// The arguments of a construction.
type Arguments = ArrayVec<u32, 4>;

/// The most statements that a call executes, those of constructors in place counted.
const MOST_STEPS: u32 = 1024;

/// What a call of a method did beside its changes of the heap.
#[derive(Clone, Copy, Debug, PartialEq, Eq)]
pub struct Done {
    /// The object that it gave, or 0.
    pub result: u32,
    /// How many statements were executed.
    pub steps: u32,
}

/// Executes a method on its arguments. A constructor makes an object of its class.
pub fn execute(objects: &mut Vec<Object>, spec: &CheckedSpec, method: u32, args: &[u32]) -> Done
    requires method { method < length spec.now.methods }
    requires args { HasArguments spec.now method args.now }
    requires room { HasRoom objects.old 1025 }
    ensures grows { Grows 1 objects.old 0 objects.new result.steps }
    ensures body { outcome objects.new.items result.result result.steps
        ≡ told.body spec.now method args.now objects.old.items }
    ensures checked { IsChecked spec.now }
{
    let called = spec.method(method);
    let depth = spec.class_count();
    if called.constructor {
        let (result, steps) = construct(objects, spec, depth, called.class, args, 0);
        return Done { result, steps };
    }
    let mut slots = Slots::new();
    declare_all(&mut slots, args);
    let steps = run(objects, spec, depth, called.body.as_slice(), &mut slots, 0);
    returned(objects, spec, depth, &called.value, slots.as_slice(), steps)
}

/// Executes the `return` of a method, where it has one.
fn returned(
    objects: &mut Vec<Object>,
    spec: &CheckedSpec,
    depth: u32,
    source: &Option<Source>,
    slots: &[u32],
    steps: u32,
) -> Done
    requires source { IfSome source.now (SourceInRange (length spec.now.classes)) }
    requires steps { steps ≤ 1024 }
    requires room { HasRoom objects.old (1025 - steps) }
    ensures grows { Grows 1 objects.old steps objects.new result.steps }
    ensures gives { IfSome source.now HasFewArguments
        → Gives (outcome objects.new.items result.result result.steps)
        (told.returned (made spec.now depth) source.now (moment objects.old.items slots.now steps)) }
{
    match source {
        Some(source) if steps < MOST_STEPS => {
            let (result, steps) = value(objects, spec, depth, source, slots, steps + 1);
            Done { result, steps }
        }
        _ => Done { result: 0, steps },
    }
}

/// Executes the statements in order, and answers how many are executed now. Where `steps` comes to the most, which
/// no specification within the limits reaches, the rest is left out.
#[cycle(body)]
#[tactic(auto, using(crate::proofs::Underway::begins, crate::proofs::Underway::in_range_at, crate::proofs::Underway::goes_on, crate::proofs::Underway::stops, crate::proofs::Underway::ends))]
fn run(
    objects: &mut Vec<Object>,
    spec: &CheckedSpec,
    depth: u32,
    acts: &[Act],
    slots: &mut Slots,
    steps: u32,
) -> u32
    requires acts { ActsInRange (length spec.now.classes) (statements_of acts.now) }
    requires steps { steps ≤ 1024 }
    requires room { HasRoom objects.old (1024 - steps) }
    ensures grows { Grows 0 objects.old steps objects.new result }
    ensures comes { Fits slots.old.items (statements_of acts.now)
        → Comes (moment objects.new.items slots.new.items result)
        (told.run (made spec.now depth) (statements_of acts.now) (moment objects.old.items slots.old.items steps)) }
{
    let mut steps = steps;
    'each: for act in acts {
        if steps == MOST_STEPS {
            return steps;
        }
        steps = step(objects, spec, depth, act, slots, steps + 1);
    }
    steps
}

/// Executes one statement, which is counted already.
#[cycle(body)]
fn step(
    objects: &mut Vec<Object>,
    spec: &CheckedSpec,
    depth: u32,
    act: &Act,
    slots: &mut Slots,
    steps: u32,
) -> u32
    requires act { ActInRange (length spec.now.classes) (statement_of act.now) }
    requires steps { steps ≤ 1024 }
    requires room { HasRoom objects.old (1025 - steps) }
    ensures grows { Grows 1 objects.old steps objects.new result }
    ensures comes { ActHasFewArguments (statement_of act.now)
        → array_vec_len slots.old + written_by (statement_of act.now) ≤ 69
        → Comes (moment objects.new.items slots.new.items result)
        (told.step (made spec.now depth) (statement_of act.now) (moment objects.old.items slots.old.items steps)) }
{
    match act {
        Act::Local(source) => {
            let (object, steps) = value(objects, spec, depth, source, slots.as_slice(), steps);
            declare(slots, object);
            steps
        }
        Act::Change(slot, source) => {
            let (object, steps) = value(objects, spec, depth, source, slots.as_slice(), steps);
            change(slots, *slot, object);
            steps
        }
        Act::Write(target, field, source) => {
            let owner = reached(objects.as_slice(), slots.as_slice(), target);
            let (object, steps) = value(objects, spec, depth, source, slots.as_slice(), steps);
            write(objects, owner, *field, object);
            steps
        }
        Act::If(test, first, second) => {
            let declared = slots.len();
            let acts = if holds(objects.as_slice(), slots.as_slice(), test) {
                first.as_slice()
            } else {
                second.as_slice()
            };
            let steps = run(objects, spec, depth, acts, slots, steps);
            slots.truncate(declared);
            steps
        }
    }
}

/// The object that the value is, and how many statements are executed now.
#[cycle(body)]
fn value(
    objects: &mut Vec<Object>,
    spec: &CheckedSpec,
    depth: u32,
    source: &Source,
    slots: &[u32],
    steps: u32,
) -> (u32, u32)
    requires source { SourceInRange (length spec.now.classes) source.now }
    requires steps { steps ≤ 1024 }
    requires room { HasRoom objects.old (1025 - steps) }
    ensures grows { Grows 1 objects.old steps objects.new result.1 }
    ensures gives { HasFewArguments source.now
        → Gives (outcome objects.new.items result.0 result.1)
        (told.value (made spec.now depth) source.now (moment objects.old.items slots.now steps)) }
{
    match source {
        Source::Reach(reach) => (reached(objects.as_slice(), slots, reach), steps),
        Source::Make(class, args) => {
            let args = arguments(objects.as_slice(), slots, args.as_slice());
            construct(objects, spec, depth, *class, args.as_slice(), steps)
        }
    }
}

/// Makes an object of the class and executes the class's constructor on it. Constructors stand in one another at most
/// as deep as there are classes, since none leads back to itself.
#[cycle(body)]
fn construct(
    objects: &mut Vec<Object>,
    spec: &CheckedSpec,
    depth: u32,
    class: u32,
    args: &[u32],
    steps: u32,
) -> (u32, u32)
    requires class { class < length spec.now.classes }
    requires steps { steps ≤ 1024 }
    requires room { HasRoom objects.old (1025 - steps) }
    ensures grows { Grows 1 objects.old steps objects.new result.1 }
    ensures gives { length args.now ≤ 4
        → Gives (outcome objects.new.items result.0 result.1)
        (made spec.now depth class args.now objects.old.items steps) }
{
    let object = add(objects, spec, class);
    if depth == 0 {
        return (object, steps);
    }
    let constructor = spec.method(spec.constructor(class));
    let acts = constructor.body.as_slice();
    let mut slots = frame(object, args);
    let steps = run(objects, spec, depth - 1, acts, &mut slots, steps);
    (object, steps)
}

/// Puts a fresh object behind the others, and answers its number.
fn add(objects: &mut Vec<Object>, spec: &CheckedSpec, class: u32) -> u32
    requires class { class < length spec.now.classes }
    requires room { HasRoom objects.old 1 }
    ensures number { result ≡ length objects.new.items }
    ensures grown { vec_len objects.new ≡ vec_len objects.old + 1 }
    ensures capacity { vec_capacity objects.new ≡ vec_capacity objects.old }
    ensures items { objects.new.items ≡ objects.old.items ++ fresh spec.now class ∷ [] }
{
    objects.push_reserved(Object::fresh(class, spec.field_count(class)));
    objects.len() as u32
}

/// Writes the field of the object; where the heap has no such position, nothing changes.
#[tactic(auto, using(crate::proofs::Places::write_at_none, crate::proofs::Places::write_past, crate::proofs::Places::write_within))]
fn write(objects: &mut Vec<Object>, owner: u32, field: u32, object: u32)
    ensures capacity { vec_capacity objects.new ≡ vec_capacity objects.old }
    ensures items { objects.new.items ≡ heap.write objects.old.items owner field object }
    ensures same { vec_len objects.new ≡ vec_len objects.old }
{
    if owner == 0 {
        return;
    }
    let place = owner as usize - 1;
    if place < objects.len() {
        let found = &mut objects[place];
        found.put(field, object);
    }
}

/// The slots of a call: the receiver or the fresh object, and then the arguments.
fn frame(this: u32, args: &[u32]) -> Slots
    ensures { length args.now ≤ 68 → result.items ≡ this ∷ args.now }
{
    let mut slots = Slots::new();
    slots.push(this);
    declare_all(&mut slots, args);
    slots
}

/// Declares the next slots. There is always room within the limits.
fn declare_all(slots: &mut Slots, objects: &[u32])
    ensures { array_vec_len slots.old + length objects.now ≤ 69
        → slots.new.items ≡ slots.old.items ++ objects.now }
{
    let _ = slots.try_extend_from_slice(objects);
}

/// Declares the next slot. There is always room within the limits.
fn declare(slots: &mut Slots, object: u32)
    ensures { array_vec_len slots.old < 69 → slots.new.items ≡ slots.old.items ++ object ∷ [] }
{
    let _ = slots.try_push(object);
}

fn change(slots: &mut Slots, slot: u32, object: u32)
    ensures { slots.new.items ≡ slice_set slots.old.items slot object }
{
    if (slot as usize) < slots.len() {
        slots[slot as usize] = object;
    }
}

/// The arguments of a construction, 0 for an opaque one. There is always room within the limits.
fn arguments(objects: &[Object], slots: &[u32], args: &[Option<Reach>]) -> Arguments
    ensures { length args.now ≤ 4 → result.items ≡ map (told.argument objects.now slots.now) args.now }
{
    let mut found = Arguments::new();
    'each: for arg in args {
        let _ = found.try_push(argument(objects, slots, arg));
    }
    found
}

fn argument(objects: &[Object], slots: &[u32], arg: &Option<Reach>) -> u32
    ensures { result ≡ told.argument objects.now slots.now arg.now }
{
    match arg {
        Some(reach) => reached(objects, slots, reach),
        None => 0,
    }
}
