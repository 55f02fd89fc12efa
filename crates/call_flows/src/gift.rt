//! Gifts: which names of the caller the hidden slots of a called procedure are given.
ghost use Rattle.std.specs.Prelude.{◌↔◌, All, IsTrue};
ghost use Rattle.call_flows.specs.Gifts.{Agree, AreGifts, MayGive};
ghost use Rattle.client_facts.specs.Choices.{MayBeGiven};
ghost use Rattle.client_facts.specs.Held.{setting as told};
ghost use Rattle.client_model.specs.Codes.{name_of};

use crate::name::{Name, name_of};
use client_facts::{Setting, may_stand};

/// A slot of the called procedure, by class and number, is given the name with this code.
#[derive(Clone, Copy, Debug)]
pub(crate) struct Gift {
    pub(crate) class: u32,
    pub(crate) number: u32,
    pub(crate) code: u32,
}

/// Whether one choice can make both gifts.
fn agree(one: &Gift, other: &Gift) -> bool
    ensures { IsTrue result ↔ Agree one.now other.now }
{
    one.class != other.class || (one.number == other.number) == (one.code == other.code)
}

fn agrees_with_all(one: &Gift, gifts: &[Gift]) -> bool
    ensures { IsTrue result ↔ All (Agree one.now) gifts.now }
{
    gifts.iter().all(|other| agree(one, other))
}

/// Whether each two of these gifts agree.
fn all_agree(gifts: &[Gift]) -> bool
    ensures { IsTrue result ↔ All (λ one. All (Agree one) gifts.now) gifts.now }
{
    gifts.iter().all(|one| agrees_with_all(one, gifts))
}

/// Whether the slot may be given the name at the procedure call at this point.
fn may_give(setting: &Setting<'_>, procedure: u32, point: u32, gift: &Gift) -> bool
    ensures { IsTrue result ↔ MayGive (told setting.now) procedure point gift.now }
{
    gift.number < 3
        && is_unfixed(gift.code)
        && may_stand(setting, procedure, point, gift.class, gift.code)
}

/// Whether the code is that of a variable or a slot.
fn is_unfixed(code: u32) -> bool
    ensures { IsTrue result ↔ MayBeGiven (name_of code) }
{
    match name_of(code) {
        Name::Variable(_) | Name::Slot(_) => true,
        _ => false,
    }
}

/// Whether some choice for the procedure call at this point makes all of these gifts.
pub(crate) fn may_be_given(
    setting: &Setting<'_>,
    procedure: u32,
    point: u32,
    gifts: &[Gift],
) -> bool
    ensures { IsTrue result ↔ AreGifts (told setting.now) procedure point gifts.now }
{
    all_may_be_given(setting, procedure, point, gifts) && all_agree(gifts)
}

fn all_may_be_given(setting: &Setting<'_>, procedure: u32, point: u32, gifts: &[Gift]) -> bool
    ensures { IsTrue result ↔ All (MayGive (told setting.now) procedure point) gifts.now }
{
    gifts
        .iter()
        .all(|gift| may_give(setting, procedure, point, gift))
}
