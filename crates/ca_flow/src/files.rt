//! The files that commands write.
ghost use Rattle.std.specs.Prelude.{◌≡◌, IfOk};
ghost use Rattle.std.specs.List.{All};
ghost use Rattle.ca_flat_text.specs.FlatText.{HasLine, flat_text};
ghost use Rattle.ca_matrix.specs.Text.{text_of};
ghost use Rattle.ca_flow.specs.code.Work.{IsOutFile};

use crate::work::OutFile;
use ca_base::NoMemory;
use ca_flat_text::write_flat;
use ca_lex::Text;
use ca_matrix::Matrix;
use ca_net::FlatNet;
use std::alloc::Global;

/// The file of a matrix.
pub(crate) fn matrix_file<'a>(
    alloc: Global,
    name: &'a str,
    matrix: &Matrix,
) -> Result<OutFile<'a>, NoMemory>
    ensures { IfOk result (IsOutFile name.now (text_of matrix.now)) }
{
    let bytes = matrix.write(alloc)?;
    text_file(alloc, name, bytes)
}

/// The file of a flat network.
pub(crate) fn flat_file<'a>(
    alloc: Global,
    name: &'a str,
    net: &FlatNet,
) -> Result<OutFile<'a>, NoMemory>
    requires { All HasLine net.now.devices }
    ensures { IfOk result (IsOutFile name.now (flat_text net.now)) }
{
    let bytes = write_flat(alloc, net)?;
    text_file(alloc, name, bytes)
}

/// A file of this name and with these bytes.
pub(crate) fn text_file<'a>(
    alloc: Global,
    name: &'a str,
    bytes: Text,
) -> Result<OutFile<'a>, NoMemory>
    ensures { IfOk result (IsOutFile name.now bytes) }
{
    Ok(OutFile {
        name,
        typed: Text::from_bytes(alloc, name.as_bytes())?,
        bytes,
    })
}

/// Two files.
#[derive(Drop)]
pub(crate) struct TwoFiles<'a> {
    pub(crate) file: OutFile<'a>,
    pub(crate) second: OutFile<'a>,
}

/// The files of these names, to which these texts are to be written.
pub(crate) fn two_files<'a>(
    alloc: Global,
    first_name: &'a str,
    first: Text,
    second_name: &'a str,
    second: Text,
) -> Result<TwoFiles<'a>, NoMemory>
    ensures first { IfOk result (λ files. IsOutFile first_name.now first files.file) }
    ensures second { IfOk result (λ files. IsOutFile second_name.now second files.second) }
{
    let file = text_file(alloc, first_name, first)?;
    let second = text_file(alloc, second_name, second)?;
    Ok(TwoFiles { file, second })
}
