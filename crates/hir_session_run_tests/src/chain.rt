//! A long chain of imports.

use crate::sessions::converse;
use std::alloc::{AllocError, Global};
use std::fmt::Write;
use std::test::Fail;

const CRATES: &str = r#"{"do":"crates","crates":[{"edition":"2021","root":"lib.rs"}]}"#;

/// A thousand imports, each of the next one's name, and at the end the function that all of them name.
fn chain(alloc: Global, length: u16) -> Result<String, AllocError> {
    let mut text = String::from_str(alloc, CRATES)?;
    text.push_str("\n{\"do\":\"set file\",\"file\":\"lib.rs\",\"unit\":{\"nodes\":[")?;
    for k in 0..length {
        let next = k.saturating_add(1);
        write!(
            text,
            "{{\"kind\":\"Use\",\"id\":[{k},0],\"tree\":{{\"single\":\"self::x{next}\",\"as\":\"x{k}\"}}}},"
        )?;
    }
    write!(
        text,
        "{{\"kind\":\"Fn\",\"id\":[0,0],\"name\":\"x{length}\"}}]}}}}\n"
    )?;
    text.push_str("{\"do\":\"refresh\"}\n{\"do\":\"resolve\",\"at\":[0],\"path\":\"x0\"}\n")?;
    Ok(text)
}

const CHAIN_REPLIES: &str = r#"{"ok":null}
{"ok":null}
{"ok":[[0]]}
{"ok":{"macros":null,"stop":null,"types":null,"values":{"def":{"crate":0,"id":[0,0],"in":["lib.rs"],"kind":"Fn"},"import":{"id":[0,0],"in":["lib.rs"],"kind":"import","place":0},"vis":{"explicit":false,"module":{"crate":0,"kind":"CrateRoot"}}}}}
"#;

/// Each import of a chain is reached before the one that it hangs on.
#[test]
fn chain_in_the_unlucky_order(rt: HostRuntime) -> Result<(), Fail> {
    let lines = chain(rt.alloc(), 1000)?;
    converse(
        &rt,
        rt.alloc(),
        "a thousand imports, last first",
        lines.as_str(),
        CHAIN_REPLIES,
    )
}
