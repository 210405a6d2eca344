//! The cells of generated chips.

ghost use Rattle.std.specs.Prelude.{◌≡◌, IfOk};
ghost use Rattle.ca_make.specs.LibraryText.{library_text};

use ca_base::NoMemory;
use ca_lex::Text;
use std::alloc::Global;

/// The text of the cells INV, NAND2 and NOR2, in this order.
#[tactic(auto, unfolding(crate::specs::LibraryText::library_text))]
pub fn library(alloc: Global) -> Result<Text, NoMemory>
    ensures { IfOk result (λ text. text ≡ library_text) }
{
    Text::from_bytes(
        alloc,
        b".SUBCKT INV A ZN VDD VSS\n\
          *.PININFO A:I ZN:O VDD:P VSS:G\n\
          MP1 ZN A VDD VDD pch W=0.63u L=0.05u\n\
          MN1 ZN A VSS VSS nch W=0.415000U L=0.05u\n\
          .ENDS\n\
          .SUBCKT NAND2 A1 A2 ZN VDD VSS\n\
          *.PININFO A1:I A2:I ZN:O VDD:P VSS:G\n\
          MP1 ZN A1 VDD VDD pch W=0.63u L=0.05u\n\
          MP2 ZN A2 VDD VDD pch W=0.63u L=0.05u\n\
          MN1 ZN A1 n1 VSS nch W=4.15e-07 L=0.05u\n\
          MN2 n1 A2 VSS VSS nch W=4.15e-07\n\
          + L=0.05u\n\
          .ENDS NAND2\n\
          .SUBCKT NOR2 A1 A2 ZN VDD VSS\n\
          *.PININFO A1:I A2:I ZN:O VDD:P VSS:G\n\
          MP1 p1 A1 VDD VDD pch W=0.63u L=0.05u\n\
          MP2 ZN A2 p1 VDD pch W=0.63u L=0.05u\n\
          MN1 ZN A1 VSS VSS nch W=0.415u L=0.05u\n\
          MN2 ZN A2 VSS VSS nch W=0.415u L=0.05u\n\
          .ENDS\n",
    )
}
