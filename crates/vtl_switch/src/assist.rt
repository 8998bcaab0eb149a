// The assist page of level 1.
ghost use Rattle.std.specs.Prelude.{◌≡◌, ◌<◌, IfSome, false};
ghost use Rattle.vsm_core.specs.Switch.{assist_page as assist_page_lem, entry_word as entry_word_lem, reason_of as reason_of_lem, vina_of as vina_of_lem};
ghost use Rattle.vtl_state.specs.States.{state_of};
ghost use Rattle.vtl_switch.specs.Answers.{number_of};

use register_file::Bank;
use vsm_base::{Name, Page, Vtl};
use vtl_state::Levels;

/// Level 1's assist page among `pages` pages, where it is on: bit 0 of level 1's VpAssistPage is 1, and the page that its
/// bits 63 to 12 name is there (TLFS, HV_X64_MSR_VP_ASSIST_PAGE). That a page past the last is off is this project's own
/// rule.
pub fn assist_page(bank: &Bank, levels: &Levels, pages: u32) -> Option<Page>
    ensures page { number_of result ≡ assist_page_lem pages (state_of bank.now levels.now) }
    ensures below { IfSome result (λ page. page.0 < pages) }
{
    let word = (bank.get(Vtl::One, Name::VpAssistPage) % (1 << 64)) as u64;
    let page = word / 4096;
    if word % 2 == 1 && page < u64::from(pages) {
        Some(Page(page as u32))
    } else {
        None
    }
}

/// The word that an entry writes whole into word 1 of the assist page of level 1 (TLFS, Virtual Processor Assist Page, VTL
/// control): the reason of the entry in bits 31 to 0. Bit 32 (VinaAsserted) and all others are zero; that they are
/// written too is this project's own rule.
pub fn entry_word(reason: u32) -> u64
    ensures word { result ≡ entry_word_lem reason }
    ensures reason { reason_of_lem result ≡ reason }
    ensures vina { vina_of_lem result ≡ false }
{
    u64::from(reason)
}

/// The reason of an entry that such a word tells: bits 31 to 0 (TLFS, HV_VTL_ENTRY_REASON).
pub fn reason_of(word: u64) -> u32
    ensures { result ≡ reason_of_lem word }
{
    (word % (1 << 32)) as u32
}

/// Whether such a word has bit 32 (VinaAsserted) set (TLFS, Virtual Interrupt Notification Assist).
pub fn vina_of(word: u64) -> bool
    ensures { result ≡ vina_of_lem word }
{
    (word >> 32) % 2 == 1
}
