// The switches.
ghost use Rattle.std.specs.Prelude.{◌≡◌, ◌↔◌, ◌<◌, IsOk, IsTrue, IfOk, IfSome, OnOk, OnErr};
ghost use Rattle.vsm_base.specs.declared.name.Name.{Name};
ghost use Rattle.vsm_base.specs.declared.places.Vtl.{Vtl};
ghost use Rattle.vsm_core.specs.Registers.{get};
ghost use Rattle.vsm_core.specs.Switch.{may_call as may_call_lem, may_enter as may_enter_lem, may_return as may_return_lem, is_fast as is_fast_lem, called, entered, returned, assist_page as assist_page_lem, restored_from, with_pair};
ghost use Rattle.vtl_state.specs.States.{state_of};
ghost use Rattle.vtl_switch.specs.Answers.{number_of, is_fast_back, page_of};
ghost use Rattle.vtl_switch.specs.Stays.{IsNotGiven};

use crate::assist::assist_page;
use crate::lawful::{is_fast, may_call, may_enter, may_return};
use register_file::Bank;
use vsm_base::{Name, Page, Vtl};
use vtl_state::{Levels, go_on, put_legal};

/// A switch that isn't lawful, and what the processor does with it.
#[derive(Clone, Copy, Debug, PartialEq, Eq)]
pub enum Refused {
    /// An undefined operation fault. That a refused switch is this fault is this project's own rule where the TLFS
    /// doesn't say.
    Undefined,
}

/// What a return does with RAX and RCX (TLFS, Virtual Secure Mode, VTL Return).
#[derive(Clone, Copy, Debug, PartialEq, Eq)]
pub enum Back {
    /// A fast return: they are kept, since RCX has bit 0 set.
    Fast,
    /// They become words 2 and 3 of this page, level 1's assist page.
    Restore(Page),
    /// They are kept, since level 1's assist page is off.
    Plain,
}

/// Where a call would tell the reason of its entry, on so many pages: level 1's assist page, where it is on. It changes
/// nothing.
///
/// # Errors
/// `Refused::Undefined` exactly where the call isn't lawful: at a privilege level other than 0, at level 1, where level 1
/// isn't enabled, or where RCX isn't 0.
pub fn call_kind(bank: &Bank, levels: &Levels, pages: u32) -> Result<Option<Page>, Refused>
    ensures exact { IsOk result ↔ IsTrue (may_call_lem (state_of bank.now levels.now)) }
    ensures page { IfOk result (λ page. number_of page ≡ assist_page_lem pages (state_of bank.now levels.now)) }
    ensures below { IfOk result (λ page. IfSome page (λ p. p.0 < pages)) }
{
    if !may_call(bank, levels) {
        return Err(Refused::Undefined);
    }
    let told = assist_page(bank, levels, pages);
    Ok(told)
}

/// The call of level 1 by level 0 (TLFS, Virtual Secure Mode, VTL Call): level 0 goes past its operation, and level 1 is
/// active. Answers level 1's assist page among `pages` pages, where it is on; the reason of the entry belongs there.
///
/// # Errors
/// `Refused::Undefined` exactly where the call isn't lawful: at a privilege level other than 0, at level 1, where level 1
/// isn't enabled, or where RCX isn't 0. Then nothing changes.
pub fn call(bank: &mut Bank, levels: &mut Levels, pages: u32) -> Result<Option<Page>, Refused>
    ensures exact { IsOk result ↔ IsTrue (may_call_lem (state_of bank.old levels.old)) }
    ensures state { OnOk result (state_of bank.new levels.new ≡ called (state_of bank.old levels.old)) }
    ensures page { IfOk result (λ page. number_of page ≡ assist_page_lem pages (state_of bank.old levels.old)) }
    ensures refused { OnErr result (state_of bank.new levels.new ≡ state_of bank.old levels.old) }
    ensures stays { (level : Vtl) (name : Name) → ¬ ((level ≡ Vtl.Zero) × (name ≡ Name.Rip)) → get bank.new level name ≡ get bank.old level name }
{
    if !may_call(bank, levels) {
        return Err(Refused::Undefined);
    }
    let page = assist_page(bank, levels, pages);
    go_on(bank, levels);
    levels.begin_at(Vtl::One);
    Ok(page)
}

/// The entry into level 1 by an interrupt or an intercept (TLFS, Virtual Secure Mode, VTL Entry): level 1 is active, and
/// level 0 stands where it stood. Answers level 1's assist page among `pages` pages, where it is on; the reason of the
/// entry belongs there.
///
/// # Errors
/// `Refused::Undefined` exactly where level 1 is active or isn't enabled. Then nothing changes.
pub fn interrupt_entry(
    bank: &mut Bank,
    levels: &mut Levels,
    pages: u32,
) -> Result<Option<Page>, Refused>
    ensures exact { IsOk result ↔ IsTrue (may_enter_lem (state_of bank.old levels.old)) }
    ensures state { OnOk result (state_of bank.new levels.new ≡ entered (state_of bank.old levels.old)) }
    ensures page { IfOk result (λ page. number_of page ≡ assist_page_lem pages (state_of bank.old levels.old)) }
    ensures refused { OnErr result (state_of bank.new levels.new ≡ state_of bank.old levels.old) }
    ensures stays { bank.new ≡ bank.old }
{
    if !may_enter(bank, levels) {
        return Err(Refused::Undefined);
    }
    levels.begin_at(Vtl::One);
    Ok(assist_page(bank, levels, pages))
}

/// What a return from level 1 would do with RAX and RCX, on so many pages. It changes nothing.
///
/// # Errors
/// `Refused::Undefined` exactly where the return isn't lawful: at a privilege level other than 0, at level 0, or where RCX
/// has a bit above bit 0 set.
pub fn return_kind(bank: &Bank, levels: &Levels, pages: u32) -> Result<Back, Refused>
    ensures exact { IsOk result ↔ IsTrue (may_return_lem (state_of bank.now levels.now)) }
    ensures fast { IfOk result (λ back. is_fast_back back ≡ is_fast_lem (state_of bank.now levels.now)) }
    ensures page { IfOk result (λ back. page_of back ≡ restored_from pages (state_of bank.now levels.now)) }
    ensures below { IfOk result (λ back. IfSome (page_of back) (λ page. page < pages)) }
{
    if !may_return(bank, levels) {
        return Err(Refused::Undefined);
    }
    if is_fast(bank, levels) {
        return Ok(Back::Fast);
    }
    match assist_page(bank, levels, pages) {
        Some(page) => Ok(Back::Restore(page)),
        None => Ok(Back::Plain),
    }
}

fn give(bank: &mut Bank, levels: &Levels, pair: Option<(u64, u64)>)
    ensures { state_of bank.new levels.now ≡ with_pair (state_of bank.old levels.now) pair }
{
    if let Some((rax, rcx)) = pair {
        put_legal(bank, levels, Name::Rax, u128::from(rax));
        put_legal(bank, levels, Name::Rcx, u128::from(rcx));
    }
}

/// The return from level 1 to level 0 (TLFS, Virtual Secure Mode, VTL Return): level 1 goes past its operation, and level
/// 0 is active. Where there is a pair of values, RAX becomes the first and RCX the second.
///
/// # Errors
/// `Refused::Undefined` exactly where the return isn't lawful: at a privilege level other than 0, at level 0, or where RCX
/// has a bit above bit 0 set. Then nothing changes.
pub fn give_back(
    bank: &mut Bank,
    levels: &mut Levels,
    pair: Option<(u64, u64)>,
) -> Result<(), Refused>
    ensures exact { IsOk result ↔ IsTrue (may_return_lem (state_of bank.old levels.old)) }
    ensures state { OnOk result (state_of bank.new levels.new ≡ returned (state_of bank.old levels.old) pair) }
    ensures refused { OnErr result (state_of bank.new levels.new ≡ state_of bank.old levels.old) }
    ensures stays { (level : Vtl) (name : Name) → ¬ ((level ≡ Vtl.One) × (name ≡ Name.Rip)) → IsNotGiven pair name → get bank.new level name ≡ get bank.old level name }
{
    if !may_return(bank, levels) {
        return Err(Refused::Undefined);
    }
    go_on(bank, levels);
    levels.begin_at(Vtl::Zero);
    give(bank, levels, pair);
    Ok(())
}
