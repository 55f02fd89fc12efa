//! How many facts a procedure has.
ghost use Rattle.std.specs.Prelude.{◌≡◌, ◌≤◌, None, IfSome, count_by};
ghost use Rattle.client_facts.specs.Counts as told;
ghost use Rattle.client_facts.specs.Held as held;

use crate::setting::Setting;
use crate::standing::is_of;

/// How many facts the procedure has over all its points, besides what is always true; None where that number does not fit.
pub fn count_facts(setting: &Setting<'_>, procedure: u32) -> Option<u64>
    ensures fits { IfSome result (λ n. n ≡ told.count_facts (held.setting setting.now) procedure) }
    ensures over { result ≡ None → 18446744073709551616 ≤ told.count_facts (held.setting setting.now) procedure }
{
    let families = setting.abstraction().families.as_slice();
    let mut count = 0u64;
    'each: for family in families {
        let more = count_instances(setting, procedure, family.classes.as_slice())?;
        count = count.checked_add(more)?;
    }
    Some(count)
}

/// How many facts of a family with variables of these classes there are.
fn count_instances(setting: &Setting<'_>, procedure: u32, classes: &[u32]) -> Option<u64>
    ensures fits { IfSome result (λ n. n ≡ told.count_instances (held.setting setting.now) procedure classes.now) }
    ensures over { result ≡ None
        → 18446744073709551616 ≤ told.count_instances (held.setting setting.now) procedure classes.now }
{
    let mut count = 1u64;
    'each: for class in classes {
        let names = count_names(setting, procedure, *class)?;
        count = count.checked_mul(names)?;
    }
    Some(count)
}

/// How many names may stand at a position of this class.
fn count_names(setting: &Setting<'_>, procedure: u32, class: u32) -> Option<u64>
    ensures fits { IfSome result (λ n. n ≡ told.count_names (held.setting setting.now) procedure class) }
    ensures over { result ≡ None → 18446744073709551616 ≤ told.count_names (held.setting setting.now) procedure class }
{
    let statics = count_statics(setting, class);
    let variables = count_of(class, setting.variables(procedure));
    let named = statics.checked_add(variables)?;
    let with_slots = named.checked_add(3)?;
    if is_of(class, setting.result(procedure)) {
        with_slots.checked_add(1)
    } else {
        Some(with_slots)
    }
}

/// How many statics are of the class.
fn count_statics(setting: &Setting<'_>, class: u32) -> u64
    ensures { result ≡ count_by (told.is_of class) (held.setting setting.now).client.statics }
{
    let client = setting.client();
    let mut count = 0u64;
    'each: for number in 0..client.static_count() {
        if is_of(class, client.static_class(number)) {
            count += 1;
        }
    }
    count
}

/// How many of these are the class.
fn count_of(class: u32, kinds: &[Option<u32>]) -> u64
    ensures { result ≡ count_by (told.is_of class) kinds.now }
{
    kinds.iter().filter(|kind| is_of(class, **kind)).count() as u64
}
