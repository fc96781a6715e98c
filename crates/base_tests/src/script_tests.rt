use rv_script::{Access, Accesses, Role};

#[test]
fn accesses_stand_in_the_order_of_execution(rt: HostRuntime) {
    let mut accesses = Accesses::new();
    assert_eq!(rt; accesses.as_slice().len(), 0);
    let mut want = [Access::default(); 8];
    for n in 0..8u8 {
        let access = Access {
            role: if n == 0 { Role::Fetch } else { Role::Store },
            addr: 0x8000_0000 + u32::from(n),
            size: 1,
            value: u32::from(n),
        };
        assert!(rt; accesses.as_slice().len() < 8);
        accesses.push(access);
        want[n as usize] = access;
    }
    assert_eq!(rt; accesses.as_slice(), want.as_slice());
}

#[test]
fn an_access_is_a_fetch_of_nothing_by_default(rt: HostRuntime) {
    let want = Access {
        role: Role::Fetch,
        addr: 0,
        size: 0,
        value: 0,
    };
    assert_eq!(rt; Access::default(), want);
}
