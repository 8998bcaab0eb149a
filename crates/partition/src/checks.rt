// The checks by which calls are refused.
ghost use Rattle.std.specs.Prelude.{◌≡◌, ◌<◌, None, length, drop};
ghost use Rattle.vsm_core.specs.Calls.{first_failed};
ghost use Rattle.vsm_core.specs.Contexts.{is_legal_context};
ghost use Rattle.vsm_core.specs.Partition.{standing, low_target, above_low_target, index_of, named, is_called, someone_has_one, enable_partition_checks, enable_vp_checks, start_checks};
ghost use Rattle.vsm_core.specs.Protection.{modify_checks, page_refusal, config_checks};
ghost use Rattle.vsm_core.specs.Status.{protects, default_mask, denies_startup};

use hyper_abi::{index_of, is_byte_form, is_other_partition, named, padding_of, target_of};
use register_file::Context;
use vsm_base::{HvStatus, Mask, VpIndex, Vtl};
use vsm_core::{PartitionState, Standing};
use vsm_status::PartitionConfig;

const NOBODY: Standing = Standing {
    one: false,
    started: false,
    start: None,
    waiting: None,
};

/// What the partition knows of a processor, and nothing of one that there isn't.
pub fn standing(state: &PartitionState, vp: u32) -> Standing
    ensures { result ≡ standing state.now vp }
{
    match state.vps.as_slice().get(vp as usize) {
        Some(standing) => *standing,
        None => NOBODY,
    }
}

/// Whether a processor is started, or its start was accepted.
pub fn is_called(standing: &Standing) -> bool
    ensures { result ≡ is_called standing.now }
{
    standing.started || standing.start.is_some()
}

/// Bits 7:0 of the second word.
fn low_target(words: &[u64]) -> u64
    requires { 1 < length words.now }
    ensures { result ≡ low_target words.now }
{
    words[1] % (1 << 8)
}

/// Bits 63:8 of the second word.
fn above_low_target(words: &[u64]) -> u64
    requires { 1 < length words.now }
    ensures { result ≡ above_low_target words.now }
{
    words[1] / (1 << 8)
}

fn someone_has_one(state: &PartitionState) -> bool
    ensures { result ≡ someone_has_one state.now }
{
    state.vps.as_slice().iter().any(|standing| standing.one)
}

/// The words of a context, which stand behind the first two words of a call.
pub fn context_of(words: &[u64; 30]) -> [u64; 28]
    ensures { result ≡ drop 2 words.now }
{
    let mut context = [0; 28];
    context.copy_from_slice(&words[2..]);
    context
}

fn is_legal_context(words: &[u64; 28]) -> bool
    ensures { result ≡ is_legal_context words.now }
{
    Context::read(words).is_ok()
}

/// Why the call that enables level 1 for the partition is refused, if it is.
pub fn enable_partition_refusal(state: &PartitionState, words: &[u64; 2]) -> Option<HvStatus>
    ensures { result ≡ first_failed (enable_partition_checks state.now words.now) }
{
    if is_other_partition(words) {
        return Some(HvStatus::INVALID_PARTITION_ID);
    }
    if low_target(words) != 1 || above_low_target(words) != 0 {
        return Some(HvStatus::INVALID_PARAMETER);
    }
    if state.enabled {
        return Some(HvStatus::VTL_ALREADY_ENABLED);
    }
    None
}

/// Why the call that enables level 1 on a processor is refused, if it is.
pub fn enable_vp_refusal(
    state: &PartitionState,
    by: VpIndex,
    level: Vtl,
    words: &[u64; 30],
) -> Option<HvStatus>
    ensures refusal { result ≡ first_failed (enable_vp_checks state.now by.0 level (named by.0 (index_of words.now)) words.now (drop 2 words.now)) }
    ensures within { result ≡ None → named by.0 (index_of words.now) < length state.now.vps }
{
    let vp = named(by, index_of(words));
    if is_other_partition(words) {
        return Some(HvStatus::INVALID_PARTITION_ID);
    }
    if vp as usize >= state.vps.len() {
        return Some(HvStatus::INVALID_VP_INDEX);
    }
    if target_of(words) != 1 || padding_of(words) != 0 {
        return Some(HvStatus::INVALID_PARAMETER);
    }
    if !state.enabled {
        return Some(HvStatus::INVALID_VTL_STATE);
    }
    if standing(state, vp).one {
        return Some(HvStatus::VTL_ALREADY_ENABLED);
    }
    if level == Vtl::Zero && someone_has_one(state) {
        return Some(HvStatus::ACCESS_DENIED);
    }
    if vp != u32::from(by.0) && is_called(&standing(state, vp)) {
        return Some(HvStatus::INVALID_VP_STATE);
    }
    if !is_legal_context(&context_of(words)) {
        return Some(HvStatus::INVALID_REGISTER_VALUE);
    }
    None
}

/// Whether a configuration of the partition turns the protection of pages on.
pub fn protects(config: u64) -> bool
    ensures { result ≡ protects config }
{
    PartitionConfig::fields_in(config).protect
}

/// The mask that a configuration of the partition gives to pages which were given none.
pub fn default_mask(config: u64) -> u32
    ensures { result ≡ default_mask config }
{
    u32::from(PartitionConfig::fields_in(config).default)
}

/// Whether a configuration of the partition denies level 0 to start processors.
fn denies_startup(config: u64) -> bool
    ensures { result ≡ denies_startup config }
{
    PartitionConfig::fields_in(config).deny_startup
}

/// Why the call that starts a processor is refused, if it is.
pub fn start_refusal(
    state: &PartitionState,
    by: VpIndex,
    level: Vtl,
    words: &[u64; 30],
) -> Option<HvStatus>
    ensures refusal { result ≡ first_failed (start_checks state.now level (named by.0 (index_of words.now)) words.now (drop 2 words.now)) }
    ensures within { result ≡ None → named by.0 (index_of words.now) < length state.now.vps }
{
    let vp = named(by, index_of(words));
    let target = target_of(words);
    if is_other_partition(words) {
        return Some(HvStatus::INVALID_PARTITION_ID);
    }
    if vp as usize >= state.vps.len() {
        return Some(HvStatus::INVALID_VP_INDEX);
    }
    if target > 1 || padding_of(words) != 0 {
        return Some(HvStatus::INVALID_PARAMETER);
    }
    if level == Vtl::Zero && (target == 1 || denies_startup(state.config)) {
        return Some(HvStatus::ACCESS_DENIED);
    }
    if target == 1 && !standing(state, vp).one {
        return Some(HvStatus::INVALID_VTL_STATE);
    }
    if is_called(&standing(state, vp)) {
        return Some(HvStatus::INVALID_VP_STATE);
    }
    if !is_legal_context(&context_of(words)) {
        return Some(HvStatus::INVALID_REGISTER_VALUE);
    }
    None
}

/// Why the call that asks for masks is refused for its header, if it is. Its map flags, which are to be a mask, stand where
/// other calls have an index.
pub fn modify_refusal(state: &PartitionState, level: Vtl, header: &[u64; 2]) -> Option<HvStatus>
    ensures { result ≡ first_failed (modify_checks state.now level header.now) }
{
    if is_other_partition(header) {
        return Some(HvStatus::INVALID_PARTITION_ID);
    }
    if level == Vtl::Zero {
        return Some(HvStatus::ACCESS_DENIED);
    }
    if !is_byte_form(header) {
        return Some(HvStatus::INVALID_PARAMETER);
    }
    if !protects(state.config) {
        return Some(HvStatus::INVALID_VTL_STATE);
    }
    if Mask::of(index_of(header)).is_none() {
        return Some(HvStatus::INVALID_PARAMETER);
    }
    None
}

/// Why an element of that call is refused, if it is, where there are so many pages.
pub fn page_refusal(pages: u32, page: u64) -> Option<HvStatus>
    ensures { result ≡ page_refusal pages page }
{
    (page >= u64::from(pages)).then_some(HvStatus::INVALID_PARAMETER)
}

/// Why a write of the partition's configuration is refused, if it is, where the configuration is this.
pub fn config_refusal(config: u64, value: u128) -> Option<HvStatus>
    ensures { result ≡ first_failed (config_checks config value) }
{
    if value >= 1 << 7 {
        return Some(HvStatus::INVALID_REGISTER_VALUE);
    }
    let value = value as u64;
    if Mask::of(default_mask(value)).is_none() {
        return Some(HvStatus::INVALID_REGISTER_VALUE);
    }
    if protects(config) && !protects(value) {
        return Some(HvStatus::INVALID_REGISTER_VALUE);
    }
    if protects(config) && default_mask(value) != default_mask(config) {
        return Some(HvStatus::INVALID_REGISTER_VALUE);
    }
    None
}
