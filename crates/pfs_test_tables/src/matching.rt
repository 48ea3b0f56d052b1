//! Worked rows, and each call that may want memory.
use crate::asserts::same;
use pfs_matching::*;
use pfs_text::Text;
use std::alloc::Global;
use std::test::Fail;

fn actor(
    alloc: Global,
    host: &str,
    user: &str,
    role: &str,
    on: bool,
) -> Result<ActorRow, NoMemory> {
    Ok(ActorRow {
        host: Text::from_slice(alloc, host.as_bytes())?,
        user: Text::from_slice(alloc, user.as_bytes())?,
        role: Text::from_slice(alloc, role.as_bytes())?,
        enabled: on,
        history: on,
    })
}

fn object(alloc: Global) -> Result<ObjectRow, NoMemory> {
    Ok(ObjectRow {
        kind: ObjectKind::Table,
        schema: Text::from_slice(alloc, b"mysql")?,
        name: Text::from_slice(alloc, b"t")?,
        enabled: true,
        timed: true,
    })
}

// What an insertion of such a row answers.
fn inserted(
    alloc: Global,
    actors: &mut Actors,
    host: &str,
    user: &str,
    role: &str,
    on: bool,
) -> Result<Result<(), MatchFault>, NoMemory> {
    let row = actor(alloc, host, user, role, on)?;
    Ok(actors.insert(row))
}

// Every user of host h is off, and user u is on at every host: u at h is on.
#[test]
fn decides_actors(rt: HostRuntime) -> Result<(), Fail> {
    let alloc = rt.alloc();
    let mut actors = Actors::open(alloc)?;
    same(&rt, "first", actors.count(), 1);
    inserted(alloc, &mut actors, "h", "%", "%", false)??;
    inserted(alloc, &mut actors, "%", "u", "%", true)??;
    same(&rt, "u at h", actors.decide(b"u", b"h"), (true, true));
    same(&rt, "v at h", actors.decide(b"v", b"h"), (false, false));
    same(&rt, "v at i", actors.decide(b"v", b"i"), (true, true));
    let again = inserted(alloc, &mut actors, "h", "%", "%", true)?;
    same(&rt, "again", again, Err(MatchFault::Duplicate));
    same(&rt, "three", actors.count(), 3);
    Ok(())
}

#[test]
fn changes_actors(rt: HostRuntime) -> Result<(), Fail> {
    let alloc = rt.alloc();
    let mut actors = Actors::open(alloc)?;
    inserted(alloc, &mut actors, "h", "%", "%", false)??;
    inserted(alloc, &mut actors, "%", "u", "%", true)??;
    let change = FlagChange {
        first: None,
        second: Some(false),
    };
    // Known from here on, as the places that are changed have to be there.
    assert_eq!(rt; actors.count(), 3);
    actors.update(&[0], &change);
    same(&rt, "v at i", actors.decide(b"v", b"i"), (true, false));
    assert_eq!(rt; actors.count(), 3);
    actors.delete(&[0, 1]);
    same(&rt, "u at i", actors.decide(b"u", b"i"), (false, false));
    Ok(())
}

// Fills the actors up to the hundredth row.
fn fill(alloc: Global, actors: &mut Actors) -> Result<(), Fail> {
    for role in 0..99u8 {
        let role = format!(in alloc; "{role}")?;
        inserted(alloc, actors, "h", "u", role.as_str(), true)??;
    }
    Ok(())
}

// One row is there at first, so the hundredth that is added is refused.
#[test]
fn refuses_the_hundredth(rt: HostRuntime) -> Result<(), Fail> {
    let alloc = rt.alloc();
    let mut actors = Actors::open(alloc)?;
    fill(alloc, &mut actors)?;
    let more = inserted(alloc, &mut actors, "h", "u", "x", true)?;
    same(&rt, "more", more, Err(MatchFault::Full));
    let again = inserted(alloc, &mut actors, "h", "u", "7", true)?;
    same(&rt, "again", again, Err(MatchFault::Duplicate));
    actors.truncate();
    same(&rt, "none", actors.count(), 0);
    Ok(())
}

#[test]
fn decides_tables(rt: HostRuntime) -> Result<(), Fail> {
    let alloc = rt.alloc();
    let mut objects = Objects::open(alloc)?;
    same(&rt, "first", objects.count(), 20);
    same(&rt, "kind", objects.row(12).kind, ObjectKind::Table);
    let (mysql, app) = (b"mysql".as_slice(), b"app".as_slice());
    same(
        &rt,
        "off",
        objects.decide_object(mysql, b"t"),
        (false, false),
    );
    same(&rt, "on", objects.decide_object(app, b"t"), (true, true));
    objects.insert(object(alloc)?)?;
    same(
        &rt,
        "its own",
        objects.decide_object(mysql, b"t"),
        (true, true),
    );
    same(
        &rt,
        "other",
        objects.decide_object(mysql, b"u"),
        (false, false),
    );
    Ok(())
}
