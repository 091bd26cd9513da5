//! What no command shows of a text's names: their hashes.
use assembler::name_hash::NameHash;
use std::hash::BuildHasher;

/// Checks that a name has another hash in another text, here with one more LF. So nobody can choose names that collide.
#[test]
fn a_name_is_hashed_behind_its_text(rt: HostRuntime) {
    let name = b"a".as_slice();
    let one = NameHash::new(b"a: halt").hash_one(&name);
    let other = NameHash::new(b"a: halt\n").hash_one(&name);
    assert!(rt; one != other);
}
