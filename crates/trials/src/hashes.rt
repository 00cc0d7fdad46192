// The hash against vectors that its authors publish.
use cases::fnv::Fnv;

#[test]
fn no_byte(rt: HostRuntime) {
    assert_eq!(rt; Fnv::new().hash(), 0xcbf2_9ce4_8422_2325);
}

// The bytes of `foob`, the lowest first.
#[test]
fn four_bytes(rt: HostRuntime) {
    let mut fnv = Fnv::new();
    fnv.add(0x626f_6f66);
    assert_eq!(rt; fnv.hash(), 0xdd12_0e79_0c25_12af);
}
