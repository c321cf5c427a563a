//! The layers of a desk: what the pages that it viewed show of the drawops at the beginning of its
//! list.
ghost use Rattle.std.specs.Prelude.{◌≡◌, [], OnOk, IsSome, Some, length};
ghost use Rattle.wb_display.specs.Display.{IsView};
ghost use Rattle.wb_board.specs.Layers.{HasTakenIn, AreLayersOf, IsUpTo, layer_of};
ghost use Rattle.wb_board.specs.declared.layers.PageLayer.{PageLayer as PageLayerValue};

use indexmap::IndexMap;
use std::alloc::{AllocError, Global};
use wb_display::Layer;
use wb_names::{Drawop, PageId};

/// A layer, and how many drawops of the list it has taken in.
#[derive(Drop)]
pub(crate) struct PageLayer {
    layer: Layer,
    taken: usize,
}

/// The layers by page.
pub(crate) type Layers = IndexMap<PageId, PageLayer>;

impl PageLayer {
    /// The layer of a page, which has taken in nothing.
    fn new(alloc: Global, page: PageId) -> PageLayer
        ensures { (result.layer ≡ record { page = page; held = [] }) × (result.taken ≡ 0) }
    {
        PageLayer {
            layer: Layer::new(alloc, page),
            taken: 0,
        }
    }

    /// Puts what came since, all at once, and nothing else. If an allocation fails, nothing was
    /// put.
    fn catch_up(&mut self, list: &[Drawop]) -> Result<(), AllocError>
        requires { HasTakenIn list.now self.old.layer.page self.old }
        ensures page { self.new.layer.page ≡ self.old.layer.page }
        ensures taken { HasTakenIn list.now self.old.layer.page self.new }
        ensures up { OnOk result (self.new.taken ≡ length list.now) }
    {
        self.layer.put_all(&list[self.taken..])?;
        self.taken = list.len();
        Ok(())
    }
}

/// Brings the layer of a page up to the list; if the page was never viewed, it gets a layer. If an
/// allocation fails, each layer is right for what it has taken in.
pub(crate) fn bring_up(
    layers: &mut Layers,
    alloc: Global,
    page: PageId,
    list: &[Drawop],
) -> Result<(), AllocError>
    requires { AreLayersOf list.now layers.old.entries }
    ensures layers { AreLayersOf list.now layers.new.entries }
    ensures up { OnOk result (IsUpTo list.now page layers.new.entries) }
{
    if let Some(page_layer) = layers.get_mut(&page) {
        return page_layer.catch_up(list);
    }
    layers.reserve(1)?;
    let mut page_layer = PageLayer::new(alloc, page);
    page_layer.catch_up(list)?;
    layers.insert(page, page_layer).unwrap();
    Ok(())
}

/// What the layer of a page shows.
pub(crate) fn shown_on(layers: &Layers, page: PageId) -> &[Drawop]
    requires { IsSome (layer_of layers.now.entries page) }
    ensures { (s : PageLayerValue) → layer_of layers.now.entries page ≡ Some s →
        IsView s.layer.held s.layer.page result.now }
{
    layers.get(&page).unwrap().layer.shown()
}
