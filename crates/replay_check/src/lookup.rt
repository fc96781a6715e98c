// Values by their keys.
ghost use Rattle.std.specs.Prelude.{◌≡◌, true};
ghost use Rattle.tpl_admit.specs.Starts.{lookup};
ghost use Rattle.replay_check.specs.Internal.Memory.{is_ascending};

/// The value of a key in pairs whose keys ascend.
pub fn value_of(pairs: &[(u32, u32)], key: u32) -> Option<u32>
    requires { is_ascending 0 pairs.now ≡ true }
    ensures { result ≡ lookup pairs.now key }
{
    match pairs.binary_search_by_key(&key, |&(k, _)| k) {
        Ok(i) => Some(pairs[i].1),
        Err(_) => None,
    }
}
