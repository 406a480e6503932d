use std::alloc::{AllocError, Global};

/// A script of 100,000 lines, of which every hundredth prints a form and all others say nothing.
pub(crate) fn many_lines(alloc: Global) -> Result<Vec<u8>, AllocError> {
    let mut script = Vec::new(alloc);
    for number in 1..=100_000u32 {
        let line = if number % 100 == 0 {
            format!(in alloc; "edquota -F vfsold --print {number} q\n")?
        } else {
            format!(in alloc; "# {number}\n")?
        };
        script.extend_from_slice(line.as_bytes())?;
    }
    Ok(script)
}

/// What that script prints of a file without records.
pub(crate) fn many_forms(alloc: Global) -> Result<Vec<u8>, AllocError> {
    let mut forms = Vec::new(alloc);
    for hundred in 1..=1_000u32 {
        let number = hundred * 100;
        let form = format!(in alloc;
            "Disk quotas for user #{number} (uid {number}):\n  Filesystem blocks soft hard inodes soft hard\n  q 0 0 0 0 0 0\n"
        )?;
        forms.extend_from_slice(form.as_bytes())?;
    }
    Ok(forms)
}

/// A script of 16,777,216 bytes, in lines of 1,024 bytes: new limits, and lines that say nothing.
pub(crate) fn greatest_script(alloc: Global) -> Result<Vec<u8>, AllocError> {
    let mut script = Vec::with_capacity(alloc, 16_777_217)?;
    push_line(&mut script, "setquota -F vfsold 7 1 2 0 0 q")?;
    for _ in 1..16_384u32 {
        push_line(&mut script, "#")?;
    }
    Ok(script)
}

/// Appends a line, with so many spaces behind it that it has 1,024 bytes with its newline.
fn push_line(script: &mut Vec<u8>, line: &str) -> Result<(), AllocError> {
    script.extend_from_slice(line.as_bytes())?;
    for _ in line.len()..1023 {
        script.push(b' ')?;
    }
    script.push(b'\n')?;
    Ok(())
}
