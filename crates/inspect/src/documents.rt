// A document that the command line names.
use answers::refused;
use document::{Document, legal};
use terminal::Failure;

// The bytes of a legal document, and what it states.
pub fn legal_document(rt: &HostRuntime, path: &str) -> Result<(Vec<u8>, Document), Failure> {
    let bytes = terminal::read(rt, path)?;
    let document = legal(bytes.as_slice()).try_map_err(|refusal| Ok(refused(
        Some(path),
        refusal,
        rt.alloc(),
    )?))?;
    Ok((bytes, document))
}
