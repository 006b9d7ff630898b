// What the words of a line write. A word that is malformed or out of its range reads as none.
ghost use Rattle.std.specs.Prelude.{◌≡◌, ◌≤◌, ◌*◌, IfNone, IfSome, Ok, drop, length};
ghost use Rattle.std.specs.Str.Parse.{digits_value, without_leading_plus};
ghost use Rattle.arrayvec.specs.ArrayVec.{array_vec_len};

use arrayvec::ArrayVec;
use std::str;
use std::str::FromStr;

// A decimal number with no sign but `-`, no leading zeros, and no `-0`.
pub fn number<T: FromStr>(w: &[u8]) -> Option<T>
where
    T::Err: Drop,
    ensures { IfSome result (λ n. T.from_str_gives w.now (Ok n)) }
{
    match w {
        b"0" | [b'1'..=b'9', ..] | [b'-', b'1'..=b'9', ..] => {
            str::from_utf8(w).ok()?.parse().ok()
        }
        _ => None,
    }
}

// A number of lowercase digits in base sixteen.
fn in_sixteen(w: &[u8]) -> Option<u64>
    ensures { IfSome result (λ n. n ≡ digits_value 16 (without_leading_plus w.now)) }
{
    if !w.iter().all(|b| matches!(b, b'0'..=b'9' | b'a'..=b'f')) {
        return None;
    }
    u64::from_str_radix(str::from_utf8(w).ok()?, 16).ok()
}

// HASH: 16 digits.
pub fn hash(w: &[u8]) -> Option<u64>
    ensures sixteen { IfSome result (λ _. length w.now ≡ 16) }
    ensures value { IfSome result (λ n. n ≡ digits_value 16 (without_leading_plus w.now)) }
{
    if w.len() == 16 { in_sixteen(w) } else { None }
}

// A byte of two digits.
fn byte(pair: &[u8]) -> Option<u8>
    ensures { IfSome result (λ _. length pair.now ≡ 2) }
{
    if pair.len() == 2 {
        u8::try_from(in_sixteen(pair)?).ok()
    } else {
        None
    }
}

// HEX: `-`, or pairs of digits, at least one and at most 512. The longest line holds 509.
pub fn hex(w: &[u8]) -> Option<ArrayVec<u8, 512>>
    ensures { IfSome result (λ bytes. array_vec_len bytes * 2 ≤ length w.now) }
{
    let mut bytes = ArrayVec::new();
    match w {
        b"-" => return Some(bytes),
        [] => return None,
        _ => {}
    }
    for pair in w.chunks(2) {
        bytes.try_push(byte(pair)?).ok()?;
    }
    Some(bytes)
}

// HEX of any length, written at the front of a buffer that is lent: how many bytes the word has. What stands behind them stays. A buffer of half
// the word's length or more is enough. A word that is malformed, or that the buffer is too short for, reads as none, and nothing is written.
pub fn hex_into(w: &[u8], bytes: &mut [u8]) -> Option<usize>
    ensures some { IfSome result (λ n. (n * 2 ≤ length w.now) × (n ≤ length bytes.new)) }
    ensures behind { IfSome result (λ n. drop n bytes.new ≡ drop n bytes.old) }
    ensures none { IfNone result (bytes.new ≡ bytes.old) }
{
    match w {
        b"-" => return Some(0),
        [] => return None,
        _ => {}
    }
    let n = w.len() / 2;
    if bytes.len() < n || !w.chunks(2).all(|pair| byte(pair).is_some()) {
        return None;
    }
    for (place, b) in bytes[..n].iter_mut().zip(w.chunks(2).filter_map(byte)) {
        *place = b;
    }
    Some(n)
}

#[cfg(test)]
mod tests {
    use super::*;
    use std::test::Fail;

    #[test]
    fn numbers_at_the_ends_of_their_ranges(rt: HostRuntime) {
        assert_eq!(rt; number::<u64>(b"18446744073709551615"), Some(u64::MAX));
        assert_eq!(rt; number::<u64>(b"18446744073709551616"), None);
        assert_eq!(rt; number::<u16>(b"65535"), Some(65535));
        assert_eq!(rt; number::<u16>(b"65536"), None);
        assert_eq!(rt; number::<i64>(b"-9223372036854775808"), Some(i64::MIN));
        assert_eq!(rt; number::<i64>(b"-9223372036854775809"), None);
        assert_eq!(rt; number::<i32>(b"2147483647"), Some(i32::MAX));
        assert_eq!(rt; number::<i32>(b"2147483648"), None);
    }

    #[test]
    fn words_that_are_no_numbers(rt: HostRuntime) {
        for w in [
            "", "-", "-0", "00", "07", "+1", "1 ", "1a", "--1", "0x1", "\u{661}",
        ] {
            assert_eq!(rt; number::<i64>(w.as_bytes()), None);
        }
        assert_eq!(rt; number::<u32>(b"-1"), None);
        assert_eq!(rt; number::<u32>(b"0"), Some(0));
    }

    #[test]
    fn sums(rt: HostRuntime) {
        assert_eq!(rt; hash(b"cbf29ce484222325"), Some(0xcbf29ce484222325));
        assert_eq!(rt; hash(b"CBF29CE484222325"), None);
        assert_eq!(rt; hash(b"+bf29ce484222325"), None);
        assert_eq!(rt; hash(b"bf29ce484222325"), None);
    }

    #[test]
    fn bytes(rt: HostRuntime) -> Result<(), Fail> {
        let read = hex(b"00ff4a").ok_or("malformed")?;
        assert_eq!(rt; read.as_slice(), [0x00, 0xff, 0x4a].as_slice());
        let none = hex(b"-").ok_or("malformed")?;
        assert_eq!(rt; none.len(), 0);
        for w in ["", "0", "000", "0g", "FF", "+1", "-1"] {
            assert_eq!(rt; hex(w.as_bytes()).is_none(), true);
        }
        Ok(())
    }

    #[test]
    fn bytes_of_a_long_word(rt: HostRuntime) {
        let mut word = [b'0'; 2050];
        word[2047] = b'7';
        word[2048] = b'f';
        let mut bytes = [1; 1025];
        assert_eq!(rt; hex(&word).is_none(), true);
        assert_eq!(rt; hex_into(&word, &mut bytes[..1024]), None);
        for w in ["", "0", "000", "000g", "FF", "+1", "-1"] {
            assert_eq!(rt; hex_into(w.as_bytes(), &mut bytes), None);
        }
        assert_eq!(rt; hex_into(b"-", &mut []), Some(0));
        assert_eq!(rt; hex_into(b"-", &mut bytes), Some(0));
        assert_eq!(rt; bytes.as_slice(), [1; 1025].as_slice());
        let mut wanted = [1; 1025];
        wanted[0] = 0x4a;
        assert_eq!(rt; hex_into(b"4a", &mut bytes), Some(1));
        assert_eq!(rt; bytes.as_slice(), wanted.as_slice());
        assert_eq!(rt; hex_into(&word, &mut bytes), Some(1025));
        wanted = [0; 1025];
        wanted[1023] = 0x07;
        wanted[1024] = 0xf0;
        assert_eq!(rt; bytes.as_slice(), wanted.as_slice());
    }
}
