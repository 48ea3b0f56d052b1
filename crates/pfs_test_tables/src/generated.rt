use pfs_gen::script_of;
use pfs_script::Script;
use sha2::{Digest, Sha256};
use std::test::Fail;

/// Numbers, and the SHA-256 of their scripts.
const SCRIPTS: [(u64, &str); 3] = [
    (
        0,
        "ed2e13c79f222b0b9edd18f31e8c67db72e3655c1aae09e4824d0639aed66050",
    ),
    (
        1,
        "9ae74ecedd7d849342c95c62283e5e115c275dfc4487af734552665a95d8160f",
    ),
    (
        u64::MAX,
        "0ba8a2b4872cdf02afafaeaf05cb1335d691e57165fbd299bdb6d6148459805e",
    ),
];

#[test]
fn scripts_have_these_digests(rt: HostRuntime) -> Result<(), Fail> {
    for (number, digest) in SCRIPTS {
        let script = script_of(rt.alloc(), number)?;
        let mut text = String::new(rt.alloc());
        for byte in Sha256::digest(script.as_slice()) {
            text.push_str(format!(in rt.alloc(); "{byte:02x}")?.as_str())?;
        }
        assert_eq!(rt; text.as_str(), digest, "the script of {number}");
    }
    Ok(())
}

#[test]
fn a_generated_script_is_read(rt: HostRuntime) -> Result<(), Fail> {
    let script = script_of(rt.alloc(), 0)?;
    let read = Script::read(rt.alloc(), script.as_slice());
    assert!(rt; read.is_ok());
    Ok(())
}
