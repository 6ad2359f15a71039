use crate::{ComponentFault, Components};
use std::test::Fail;
use word::Service;

fn service(number: u8) -> Result<Service, Fail> {
    Service::new(number).ok_or_else(|| Fail::new("no such service"))
}

/// The number of the service that the PID is joined to.
fn number_of(table: &Components, pid: u16) -> Option<u8> {
    table.service_of(pid).map(|service| service.number())
}

#[test]
fn refuses_the_65th(rt: HostRuntime) -> Result<(), Fail> {
    let third = service(3)?;
    let mut table = Components::new();
    for pid in 8127..8191 {
        assert_eq!(rt; table.add(pid, third), Ok(()));
    }
    assert_eq!(rt; table.add(8126, third), Err(ComponentFault::Full));
    assert_eq!(rt; table.add(8190, third), Err(ComponentFault::Joined));
    assert_eq!(rt; table.add(8191, third), Err(ComponentFault::OutOfRange));
    assert_eq!(rt; table.len(), 64);
    Ok(())
}

#[test]
fn removes(rt: HostRuntime) -> Result<(), Fail> {
    let fifth = service(5)?;
    let mut table = Components::new();
    assert_eq!(rt; table.add(32, fifth), Ok(()));
    assert_eq!(rt; number_of(&table, 32), Some(5));
    assert!(rt; table.remove(32));
    assert!(rt; !table.remove(32));
    assert_eq!(rt; number_of(&table, 32), None);
    Ok(())
}

#[test]
fn removes_service(rt: HostRuntime) -> Result<(), Fail> {
    let first = service(1)?;
    let second = service(2)?;
    let mut table = Components::new();
    assert_eq!(rt; table.add(100, first), Ok(()));
    assert_eq!(rt; table.add(101, second), Ok(()));
    assert_eq!(rt; table.add(102, first), Ok(()));
    table.remove_service(first);
    assert_eq!(rt; number_of(&table, 101), Some(2));
    assert_eq!(rt; table.len(), 1);
    Ok(())
}
