// The rules on a file that concern no other file: by the head of its record and the mask of its unmapped pages.
ghost use Rattle.std.specs.Prelude.{◌≡◌, ◌&&◌, not, ◌<◌, eqb};
ghost use Rattle.tables.specs.Layout.{state_of};
ghost use Rattle.formed.specs.Files.{head_formed, state_formed};

// Size 0 and only unmapped entries.
fn zero_file(n: u32, u: u64) -> bool
    ensures { result ≡ (eqb n 0 && eqb u 18446744073709551615) }
{
    n == 0 && u == 0xFFFF_FFFF_FFFF_FFFF
}

// A file that is not absent, of state k and size n. A marked file of older tables may keep its record: one
// test, so that a flag says it and no closure.
// The state stays a number: a State made of it would be matched at once, which is no plainer.
#[tactic(auto, unfolding(crate::specs::Files::state_formed))]
fn state_formed(k: u32, n: u32, u: u64, root: bool, older: bool) -> bool
    requires { (0 < k) × (k < 4) }
    ensures { result ≡ state_formed older (state_of k) n (eqb u 18446744073709551615) (not (eqb u 0)) root }
{
    match k {
        1 => !root || u == 0,
        2 => !root && zero_file(n, u),
        _ => !root && (older || zero_file(n, u)),
    }
}

// A file by the word w of its head and the mask u of its unmapped pages.
pub fn head_formed(w: u32, u: u64, used: bool, root: bool, older: bool) -> bool
    ensures { result ≡ head_formed older w u used root }
{
    if w % 16384 != 0 {
        return false;
    }
    let k = w / 1073741824;
    let n = w / 16384 % 65536;
    if k == 0 {
        return zero_file(n, u);
    }
    if !used {
        return false;
    }
    if n > 32768 {
        return false;
    }
    state_formed(k, n, u, root, older)
}
