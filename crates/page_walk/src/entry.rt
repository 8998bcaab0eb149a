// The parts of addresses and entries (Intel SDM, 4-Level Paging).
ghost use Rattle.std.specs.Prelude.{◌≡◌, ◌<◌, ◌≤◌};
ghost use Rattle.vsm_core.specs.Walk.{is_canonical, is_present, is_writable, is_user, is_executable, is_right, frame_of, index_at};
ghost use Rattle.page_walk.specs.Told.{translation_of};

use crate::walk::Translation;
use vsm_base::Access;

pub fn canonical(gva: u64) -> bool
    ensures { result ≡ is_canonical gva }
{
    let top = gva / (1 << 47);
    top == 0 || top == (1 << 17) - 1
}

pub fn present(entry: u64) -> bool
    ensures { result ≡ is_present entry }
{
    entry % 2 == 1
}

pub fn writable(entry: u64) -> bool
    ensures { result ≡ is_writable entry }
{
    entry / 2 % 2 == 1
}

pub fn for_user(entry: u64) -> bool
    ensures { result ≡ is_user entry }
{
    entry / 4 % 2 == 1
}

pub fn executable(entry: u64) -> bool
    ensures { result ≡ is_executable entry }
{
    entry / (1 << 63) == 0
}

pub fn frame(entry: u64) -> u64
    ensures { result ≡ frame_of entry }
{
    entry / 4096 % (1 << 40)
}

pub fn index(gva: u64, depth: u8) -> u16
    requires { depth ≤ 4 }
    ensures value { result ≡ index_at gva depth }
    ensures below { result < 512 }
{
    ((gva >> (39 - 9 * u32::from(depth))) % 512) as u16
}

pub fn right(access: Access, cpl: u8, to: Translation) -> bool
    ensures { result ≡ is_right access cpl (translation_of to) }
{
    let reached = cpl != 3 || to.user;
    match access {
        Access::Read => reached,
        Access::Write => to.write && reached,
        Access::Execute => to.execute && reached,
    }
}
