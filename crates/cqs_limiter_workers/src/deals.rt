//! Tenants are dealt to workers.

ghost use Rattle.std.specs.Prelude.{◌≡◌, ◌<◌, ◌%◌, None, Some, IfOk, length, replicate, slice_get};
ghost use Rattle.cqs_limiter_workers.specs.declared.works.Post.{Post};
ghost use Rattle.cqs_limiter_workers.specs.Dealing.{AreEmpty, AreDealt, IsSeatedIn};

use crate::works::Post;
use std::alloc::{AllocError, Global};

/// Places for so many tenants, with none at any.
fn no_desks<T: Drop>(alloc: Global, tenants: usize) -> Result<Vec<Option<T>>, AllocError>
    ensures { IfOk result (λ desks. desks.items ≡ replicate tenants None) }
{
    let mut desks = Vec::with_capacity(alloc, tenants)?;
    for _place in 0..tenants {
        desks.push(None)?;
    }
    Ok(desks)
}

/// Posts for so many workers, each without a tenant.
fn empty_posts<T: Drop>(
    alloc: Global,
    workers: u32,
    tenants: usize,
) -> Result<Vec<Post<T>>, AllocError>
    ensures { IfOk result (λ posts. AreEmpty workers tenants posts.items) }
{
    let mut posts = Vec::with_capacity(alloc, workers as usize)?;
    for worker in 0..workers {
        let desks = no_desks(alloc, tenants)?;
        posts.push(Post { worker, desks })?;
    }
    Ok(posts)
}

/// The tenant goes to its place at the worker.
fn seat<T: Drop>(posts: &mut Vec<Post<T>>, worker: usize, place: usize, tenant: T)
    requires worker { worker < length posts.old.items }
    requires place { (post : Post T) → slice_get posts.old.items worker ≡ Some post
        → place < length post.desks.items }
    ensures { IsSeatedIn posts.old.items worker place tenant posts.new.items }
{
    posts[worker].desks[place] = Some(tenant);
}

/// The post of each worker. The tenant at the place `t` is that of the worker `t % workers`.
pub fn posts_for<T: Drop>(
    alloc: Global,
    mut tenants: Vec<T>,
    workers: u32,
) -> Result<Vec<Post<T>>, AllocError>
    requires { 0 < workers }
    ensures { IfOk result (λ posts. AreDealt workers tenants.items 0 posts.items) }
{
    let mut posts = empty_posts(alloc, workers, tenants.len())?;
    'deal: while let Some(tenant) = tenants.pop() {
        let place = tenants.len();
        seat(&mut posts, place % workers as usize, place, tenant);
    }
    Ok(posts)
}
