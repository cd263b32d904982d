//! Boot loaders: a kernel image, ELF or bzImage, its command line and its initrd are placed in guest memory.
#![tactic(auto)]

mod bzimage;
mod cmdline;
mod elf;
mod error;
mod image;
mod initrd;
pub mod laws;
mod layout;
mod numbers;
mod plan;
mod runtime;
mod segment;
mod zeros;

pub use bzimage::BzImage;
pub use cmdline::{Cmdline, CmdlineError, load_cmdline};
pub use elf::Elf;
pub use error::LoaderError;
pub use image::{ImageBytes, KernelImage};
pub use initrd::{initrd_address, load_initrd};
pub use plan::{KernelLoaderResult, KernelPlan, PvhBootCapability, SetupHeader};
pub use runtime::RuntimeArea;
pub use segment::Segment;
