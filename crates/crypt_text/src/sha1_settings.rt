//! New settings `$sha1$`.

ghost use Rattle.std.specs.Prelude.{◌≡◌, ◌≤◌, ◌<◌, ◌+◌, ◌*◌, ◌++◌, [], ◌∷◌, length, slice_index, take};
ghost use Rattle.yescrypt_plain.specs.Field.{crypt_field};
ghost use Rattle.crypt_text.specs.NewSettings.{sha1_most, sha1_new, sha1_rounds, turned_groups};

use crate::SETTING_MAX;
use crate::fields::{crypt_field, push_number};
use crate::new_settings::or_default;
use pieces::short_bytes::ShortBytes;

// The most rounds for a count.
fn sha1_most(count: u64) -> u32
    ensures value { result ≡ sha1_most count }
    ensures least { 4 ≤ result }
{
    or_default(count, 262_144).max(4).min(4_294_967_295) as u32
}

// The first four bytes.
fn first_four(bytes: &[u8]) -> [u8; 4]
    requires { 4 ≤ length bytes.now }
    ensures { result ≡ take 4 bytes.now }
{
    let mut four = [0; 4];
    four.copy_from_slice(&bytes[..4]);
    four
}

// The rounds: at most so many, of which four bytes take up to a quarter away.
fn sha1_rounds(most: u32, four: [u8; 4]) -> u32
    requires least { 4 ≤ most }
    ensures value { result ≡ sha1_rounds most four }
{
    most - u32::from_le_bytes(four) % (most / 4)
}

// Adds the characters of group `i` of three bytes, the last of which comes first.
fn push_group(setting: &mut ShortBytes<SETTING_MAX>, bytes: &[u8], i: usize)
    requires group { 3 * i + 3 ≤ length bytes.now }
    requires room { length setting.old + 4 ≤ 128 }
    ensures added { setting.new ≡ setting.old
        ++ crypt_field (slice_index bytes.now (3 * i + 2) ∷ slice_index bytes.now (3 * i + 1) ∷ slice_index bytes.now (3 * i) ∷ []) }
    ensures len { length setting.new ≡ length setting.old + 4 }
{
    let group = [bytes[3 * i + 2], bytes[3 * i + 1], bytes[3 * i]];
    setting.push_all(crypt_field(&group).as_slice());
}

// Adds the characters of the first groups.
fn push_groups(setting: &mut ShortBytes<SETTING_MAX>, bytes: &[u8], count: usize)
    requires groups { 3 * count ≤ length bytes.now }
    requires room { length setting.old + 4 * count ≤ 128 }
    ensures added { setting.new ≡ setting.old ++ turned_groups count bytes.now }
    ensures len { length setting.new ≡ length setting.old + 4 * count }
{
    'groups: for i in 0..count {
        push_group(setting, bytes, i);
    }
}

/// `$sha1$rounds$salt$`.
pub(crate) fn sha1_new(count: u64, bytes: &[u8]) -> Option<ShortBytes<SETTING_MAX>>
    ensures { result ≡ sha1_new count bytes.now }
{
    if bytes.len() < 16 {
        return None;
    }
    let others = &bytes[4..];
    let groups = ((others.len() - 1) / 3).min(15);
    let mut setting = ShortBytes::from_slice(b"$sha1$");
    push_number(
        &mut setting,
        sha1_rounds(sha1_most(count), first_four(bytes)),
    );
    setting.push_all(b"$");
    push_groups(&mut setting, others, groups);
    setting.push_all(b"$");
    Some(setting)
}
