//! Manifests, and the faults of texts that are none.

use app_manifest::{ManifestFault, manifest_of, read_manifest};
use kernel_values::Manifest;
use serde_json::Value;
use std::alloc::Global;
use std::test::Fail;

fn read(alloc: Global, text: &str) -> Result<Result<Manifest, ManifestFault>, Fail> {
    Ok(manifest_of(alloc, &Value::from_str(alloc, text)?))
}

fn spelled(alloc: Global, text: &[u8]) -> Result<Option<Manifest>, Fail> {
    if !text.is_ascii() {
        return Err(Fail::from("not ASCII"));
    }
    Ok(read_manifest(alloc, text)?)
}

// Everything that a manifest can say, with a member of no matter in each object.
#[test]
fn whole_manifest(rt: HostRuntime) -> Result<(), Fail> {
    let text = r#"{"min_heap":4096,"uuid":"11111111-2222-3333-4444-555555555555",
        "mgmt_flags":{"restart_on_exit":true,"deferred_start":false,"other":1},
        "start_ports":[{"name":"svc","flags":{"allow_ta_connect":true,"x":0}},
        {"name":"com.b","flags":{"allow_ns_connect":true},"y":null},{"name":"c"}]}"#;
    let manifest = match read(rt.alloc(), text)? {
        Ok(manifest) => manifest,
        Err(_) => return Err(Fail::from("a fault")),
    };
    assert_eq!(rt; manifest.uuid, 0x11111111_2222_3333_4444_555555555555);
    assert!(rt; manifest.restart);
    assert!(rt; !manifest.deferred);
    let [one, two, three] = manifest.ports.as_slice() else {
        return Err(Fail::from("three start ports"));
    };
    assert_eq!(rt; one.path.as_slice(), b"svc".as_slice());
    assert_eq!(rt; one.flags.0, 1);
    assert_eq!(rt; two.path.as_slice(), b"com.b".as_slice());
    assert_eq!(rt; two.flags.0, 2);
    assert_eq!(rt; three.path.as_slice(), b"c".as_slice());
    assert_eq!(rt; three.flags.0, 0);
    Ok(())
}

// The first fault of each kind; where two meet, the earlier of the order.
#[test]
fn faults(rt: HostRuntime) -> Result<(), Fail> {
    let rows = [
        ("[]", ManifestFault::NotObject),
        ("null", ManifestFault::NotObject),
        ("{}", ManifestFault::Uuid),
        (r#"{"uuid":null}"#, ManifestFault::Uuid),
        (r#"{"uuid":"1111","mgmt_flags":1}"#, ManifestFault::Uuid),
        (
            r#"{"uuid":"11111111222233334444555555555555","mgmt_flags":null,"start_ports":1}"#,
            ManifestFault::MgmtFlags,
        ),
        (
            r#"{"uuid":"11111111222233334444555555555555","mgmt_flags":{"deferred_start":1}}"#,
            ManifestFault::MgmtFlags,
        ),
        (
            r#"{"uuid":"11111111222233334444555555555555","start_ports":{}}"#,
            ManifestFault::StartPorts(8),
        ),
        (
            r#"{"uuid":"11111111222233334444555555555555","start_ports":[{"name":"a"},{}]}"#,
            ManifestFault::StartPorts(1),
        ),
        (
            r#"{"uuid":"11111111222233334444555555555555","start_ports":[{"name":"a b"},{}]}"#,
            ManifestFault::StartPorts(0),
        ),
        (
            r#"{"uuid":"11111111222233334444555555555555","start_ports":[{"name":"a","flags":[]}]}"#,
            ManifestFault::StartPorts(0),
        ),
    ];
    for (text, fault) in rows {
        match read(rt.alloc(), text)? {
            Ok(_) => return Err(Fail::from(text)),
            Err(found) => assert_eq!(rt; found, fault),
        }
    }
    Ok(())
}

// The ninth start port is one too many, whatever it is; a bad one before it goes first.
#[test]
fn nine_start_ports(rt: HostRuntime) -> Result<(), Fail> {
    let good =
        r#"{"uuid":"11111111222233334444555555555555","start_ports":[{"name":"a"},{"name":"b"},
        {"name":"c"},{"name":"d"},{"name":"e"},{"name":"f"},{"name":"g"},{"name":"h"},1]}"#;
    let bad =
        r#"{"uuid":"11111111222233334444555555555555","start_ports":[{"name":"a"},{"name":"b"},
        {"name":"c"},{"name":"d"},{"name":"e"},{"name":"f"},{"name":"g"},1,{"name":"i"}]}"#;
    assert!(rt; matches!(read(rt.alloc(), good)?, Err(ManifestFault::StartPorts(8))));
    assert!(rt; matches!(read(rt.alloc(), bad)?, Err(ManifestFault::StartPorts(7))));
    Ok(())
}

// The text is read to its end; what is no JSON is no manifest. Of equal keys the last counts.
#[test]
fn texts(rt: HostRuntime) -> Result<(), Fail> {
    let twice = br#" {"uuid":1,"uuid":"{11111111-2222-3333-4444-555555555555}"} "#;
    let Some(manifest) = spelled(rt.alloc(), twice)? else {
        return Err(Fail::from("no manifest"));
    };
    assert_eq!(rt; manifest.uuid, 0x11111111_2222_3333_4444_555555555555);
    assert!(rt; manifest.ports.is_empty());
    assert!(rt; spelled(rt.alloc(), b"{}")?.is_none());
    assert!(rt; spelled(rt.alloc(), b"{} x")?.is_none());
    assert!(rt; spelled(rt.alloc(), b"")?.is_none());
    Ok(())
}

// The spellings that the crate uuid reads: hyphens, none, braces, and a URN in either case; nothing else.
#[test]
fn spellings_of_a_uuid(rt: HostRuntime) -> Result<(), Fail> {
    let same = [
        r#"{"uuid":"700bd400-bfee-3dc0-d885-d5f9c40ff7e7"}"#,
        r#"{"uuid":"700BD400BFEE3DC0D885D5F9C40FF7E7"}"#,
        r#"{"uuid":"{700bd400-bfee-3dc0-d885-d5f9c40ff7e7}"}"#,
        r#"{"uuid":"urn:uuid:700bd400-bfee-3dc0-d885-d5f9c40ff7e7"}"#,
        r#"{"uuid":"URN:UUID:700bd400-bfee-3dc0-d885-d5f9c40ff7e7"}"#,
    ];
    for text in same {
        match read(rt.alloc(), text)? {
            Ok(manifest) => {
                assert_eq!(rt; manifest.uuid, 0x700bd400_bfee_3dc0_d885_d5f9c40ff7e7)
            }
            Err(_) => return Err(Fail::from(text)),
        }
    }
    let other = r#"{"uuid":"urn:700bd400-bfee-3dc0-d885-d5f9c40ff7e7"}"#;
    assert!(rt; matches!(read(rt.alloc(), other)?, Err(ManifestFault::Uuid)));
    Ok(())
}
